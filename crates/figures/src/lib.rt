// The figures of a report, over lists of calls. There is no code here.
#![tactic(auto)]
