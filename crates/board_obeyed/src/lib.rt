// A board that obeys an accepted schedule. No code of its own.
#![tactic(auto)]
