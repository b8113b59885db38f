// Labels in another case: which bytes of a log, a rule file and a typed rule may be written in either case, and that it makes no
// difference. There is no code here.
#![tactic(auto)]
