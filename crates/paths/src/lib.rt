// Theorems only: the checker accepts if and only if the rules hold on every path. See specs/.
#![tactic(auto)]
