// The text of a site script: lines of words, and the numbers among them.
#![tactic(auto)]

pub mod number;
pub mod words;
