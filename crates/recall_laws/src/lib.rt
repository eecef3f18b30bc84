// Firmware that waits for the address interrupt stays in its wait through every transfer to another device (docs/RECALL.md): laws for any
// image, and a short image. Definitions and theorems alone.
#![tactic(auto)]
