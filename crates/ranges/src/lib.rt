// Sums, counts and tests over the numbers below a bound: no code, only definitions and their laws.
#![tactic(auto)]
