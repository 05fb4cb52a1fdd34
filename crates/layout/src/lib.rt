// Laws of the record table: written order, reading back, number 2, for programs and for any bytes. The theorems are in specs/.
#![tactic(auto)]
