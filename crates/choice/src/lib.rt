// The choice of a candidate list at run time: one type that is any of the lists, by number or name.
#![tactic(auto)]

pub mod any;
pub mod list_name;
pub mod make;
