// Laws over all states and lists that hold the chip's rules beside their definitions. There is no code here.
#![tactic(auto)]
