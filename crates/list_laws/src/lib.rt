// Lists with a part of them replaced, as a copy over a slice leaves them: laws alone.
#![tactic(auto)]
