// The formula that a typed rule says, and the table of nodes that stands for it. There is no code here.
#![tactic(auto)]
