// The plain reading of the bus agrees with the stepping engine: definitions and theorems alone.
#![tactic(auto)]
