// The runner's memory stands for the definition's: see specs/.
#![tactic(auto)]
