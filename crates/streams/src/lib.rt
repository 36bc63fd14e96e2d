// An input read byte by byte, over any cut of it. There is no code here.
#![tactic(auto)]
