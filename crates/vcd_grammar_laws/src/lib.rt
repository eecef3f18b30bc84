// Theorems about the reader of dumps: what it makes of a text, said of the words that the text spells. There is no code here.
#![tactic(auto)]
