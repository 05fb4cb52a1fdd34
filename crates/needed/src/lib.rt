// No code: each rule of the checker is needed, shown by files in specs/.
#![tactic(auto)]
