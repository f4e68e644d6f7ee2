// What the calls for C pack into one number, taken out again: theorems on the calls. No code of its own.
#![tactic(auto)]
