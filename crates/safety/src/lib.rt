// Safety of the accepted file's run. The theorems are in specs/.
#![tactic(auto)]
