// Laws only: what is claimed of calls in specs/, the laws in proofs/.
#![tactic(auto)]
