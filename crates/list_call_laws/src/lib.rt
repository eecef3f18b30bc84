// Theorems about lists of words: the list call is the step given word by word. There is no code here.
#![tactic(auto)]
