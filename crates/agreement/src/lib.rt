// Claim 1 over lists of calls: the lists and the table agree. There is no code here.
#![tactic(auto)]
