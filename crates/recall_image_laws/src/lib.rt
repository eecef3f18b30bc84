// The recall (docs/RECALL.md): images/recall.rom stays in its wait through every transfer to another device. Definitions and theorems alone.
#![tactic(auto)]
