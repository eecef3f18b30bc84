// The three demands, the cases P1 to P12, the recall and the fourteen wishes, a file each: every statement in full, proved by the theorem that carries it. There is no code here.
#![tactic(auto)]
