// What a case that passes says: laws alone.
#![tactic(auto)]
