// Demand 3 as one theorem over every list of the box's calls. There is no code here.
#![tactic(auto)]
