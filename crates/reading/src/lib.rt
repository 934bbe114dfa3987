// Reading values from the words of a line.
#![tactic(auto)]

pub mod net_line;
pub mod read;
pub mod single;
