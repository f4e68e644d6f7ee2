// Demand 3 over the calls for C. No code of its own.
#![tactic(auto)]
