// Demand 3, proved about the definitions. The theorems are in specs/.
#![tactic(auto)]
