// Theorems only: the accepted file's run and the plain run go in lock step (specs/).
#![tactic(auto)]
