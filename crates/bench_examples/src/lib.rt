// Documents 01 and 02, "Bench examples", and the rows that document 02 states: no code, only theorems.
#![tactic(auto)]
