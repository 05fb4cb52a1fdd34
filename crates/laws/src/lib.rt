// Laws of the small functions that the definitions share, each stated once: see specs/.
#![tactic(auto)]
