// A rule written as text and read again. There is no code here.
#![tactic(auto)]
