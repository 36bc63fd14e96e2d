// Document 01's marked rows, computed from the definitions. There is no code here.
#![tactic(auto)]
