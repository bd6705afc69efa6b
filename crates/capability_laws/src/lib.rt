// Laws of the definitions of metadata words, bounds, cuts and capabilities. There is no code here.
#![tactic(auto)]
