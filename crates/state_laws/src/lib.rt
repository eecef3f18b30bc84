// The state in bytes stays one through steps, and what is proved of the state holds of its bytes: definitions and theorems alone.
#![tactic(auto)]
