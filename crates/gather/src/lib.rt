// Laws only: what is gathered in specs/, the laws in proofs/.
#![tactic(auto)]
