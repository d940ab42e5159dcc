// House roofs by wind class: no code, only theorems on a job by class and the same job by pressures.
#![tactic(auto)]
