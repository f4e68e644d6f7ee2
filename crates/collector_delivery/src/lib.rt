// The theorem that a text of several pages arrives: written, cut into blocks, taken in and collected. No code of its own.
#![tactic(auto)]
