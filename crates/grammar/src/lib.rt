// What a line, a label and a rule file are, said of their bytes and without a test that computes: a line or a file is the concatenation of
// its parts, and a table of nodes is seen by which node names which. The laws say what the tests that compute tell of these. There is no
// code here.
#![tactic(auto)]
