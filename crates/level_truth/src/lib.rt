// A formula and the same formula with each variable the level of its "some". There is no code here.
#![tactic(auto)]
