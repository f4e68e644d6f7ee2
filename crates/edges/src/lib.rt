// Document 01's list of where the edges are, each line computed. No code of its own.
#![tactic(auto)]
