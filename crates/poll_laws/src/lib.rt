// Laws of the poller's definitions, for claims over lists of calls. There is no code here.
#![tactic(auto)]
