// The text of a formula, read again: what it says is the formula with each variable the level of its "some". There is no code here.
#![tactic(auto)]
