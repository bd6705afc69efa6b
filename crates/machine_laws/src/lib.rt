// Laws of the definitions of a step and a run. There is no code here.
#![tactic(auto)]
