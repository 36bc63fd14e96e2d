// A capture that is cut, and one that is written and read back, over lists of the recorder's calls. There is no code here.
#![tactic(auto)]
