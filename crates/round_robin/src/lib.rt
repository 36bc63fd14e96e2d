// Demand 3's sentence on rounds: what consecutive single rounds ask. There is no code here.
#![tactic(auto)]
