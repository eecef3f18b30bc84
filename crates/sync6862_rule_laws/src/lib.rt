// The interval of either chip's counters over any list of calls. There is no code here.
#![tactic(auto)]
