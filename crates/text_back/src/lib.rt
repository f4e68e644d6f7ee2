// Text read back as it was written: the theorems on `text_writer` and `text_reader`. No code of its own.
#![tactic(auto)]
