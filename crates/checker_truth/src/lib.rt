// What a truthful message is, and that the checker accepts these and no others. No code of its own.
#![tactic(auto)]
