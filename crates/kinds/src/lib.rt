// Kinds of grade: what a link's grade and a station's label are, how a label is carried over a link, and which label is better.
#![tactic(auto)]

pub mod airtime;
pub mod chance;
pub mod kind;
pub mod margin;
pub mod order;
