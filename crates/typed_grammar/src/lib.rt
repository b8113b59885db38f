// Typed rules as the paper words them: which texts are inside the grammar, and what they say. There is no code here.
#![tactic(auto)]
