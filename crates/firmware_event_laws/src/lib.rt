// That the readers of `firmware_event_lines` and `firmware_event_list` find in a text what its lines and tokens are. Definitions and theorems alone.
#![tactic(auto)]
