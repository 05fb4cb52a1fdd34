// Theorems only: a procedure is reached if and only if a chain of calls from the entry leads to it, and what number 17 changed. See specs/.
#![tactic(auto)]
