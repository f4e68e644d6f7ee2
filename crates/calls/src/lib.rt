// How calls for C hand numbers and lent memory back. No code of its own.
#![tactic(auto)]
