// The job file's grammar: no code, only theorems on the definition that job_file's reader is proved to compute.
#![tactic(auto)]
