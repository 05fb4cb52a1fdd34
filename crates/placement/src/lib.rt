// Whatever the annotator writes, the checker accepts: theorems about placing creates and removes. The theorems are in specs/.
#![tactic(auto)]
