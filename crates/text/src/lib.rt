// The lines of a text, the words and numbers of a line, read from their bytes, and hexadecimal output.
#![tactic(auto)]

pub mod hex;
pub mod number;
pub mod words;
