// Laws of the authority that steps and runs leave. There is no code here.
#![tactic(auto)]
