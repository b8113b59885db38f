// The three demands on the check, as three statements about what its calls answer, and the worked cases of the paper. There is
// no code here.
#![tactic(auto)]
