// Lists of changes of SCL and SDA with what the plain reading gives, computed from the definitions. There is no code here.
#![tactic(auto)]
