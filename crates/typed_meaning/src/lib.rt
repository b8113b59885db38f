// What a typed rule means: the answers of the reader in the paper's words. There is no code here.
#![tactic(auto)]
