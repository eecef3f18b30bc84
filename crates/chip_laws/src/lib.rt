// Theorems about one step: a well formed state stays well formed, and which number each word is answered with. There is no code here.
#![tactic(auto)]
