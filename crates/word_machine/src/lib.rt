// The runner on lists of words, and what it gives: see specs/.
#![tactic(auto)]
