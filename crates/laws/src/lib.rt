// Definitions and laws that several rooms share. No code of its own.
#![tactic(auto)]
