// Accepted logs in the paper's words: where a line meets a refusal after the lines before it, and that what the lines say is what they
// leave. There is no code here.
#![tactic(auto)]
