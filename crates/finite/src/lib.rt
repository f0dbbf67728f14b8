// Finite sums, tests of all numbers below a bound, and the subsets of those numbers: definitions and laws in specs/, no code.
#![tactic(auto)]
