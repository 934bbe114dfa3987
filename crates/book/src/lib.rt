// The book of a gateway: its calls over the caller's memory.
#![tactic(auto)]

pub mod asked;
pub mod book;
mod calls;
mod clearing;
mod fitting;
mod scan;
mod station;
mod waking;
mod work;
