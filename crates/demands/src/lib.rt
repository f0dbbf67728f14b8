// Demand 3 about the counts that the calls return, in specs/. No code.
#![tactic(auto)]
