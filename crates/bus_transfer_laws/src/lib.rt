// Bytes on the bus, writes to II STS and port pins, told by levels and bytes read: statements and theorems, no code.
#![tactic(auto)]
