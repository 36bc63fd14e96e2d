// What the value of a reply goes into, over lists of calls. There is no code here.
#![tactic(auto)]
