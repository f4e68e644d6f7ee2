// Pieces given one after the other: the theorems of demand 2 over the answers of the intake. No code of its own.
#![tactic(auto)]
