// What the writer and the reader of text share. The definitions and their laws stand in specs/ and proofs/.
#![tactic(auto)]

// 01 Page and text, 02 No. 5: the septets of a page, and the places of a text that is read.
pub const PLACES: usize = 93;
