// What the events of a list of calls say of readings, and the claim of them. There is no code here.
#![tactic(auto)]
