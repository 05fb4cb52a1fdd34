// Laws of a procedure's regions: reach along edges, and a call's mapping. The theorems are in specs/.
#![tactic(auto)]
