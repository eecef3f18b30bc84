// Events as text, both ways: laws alone.
#![tactic(auto)]
