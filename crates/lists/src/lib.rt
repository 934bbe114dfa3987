// Candidate lists: the stations that wait for their links to be gone through, each list in its own order.
#![tactic(auto)]

pub mod first_in;
pub mod handed;
pub mod list;
mod queue;
pub mod small_label;
pub mod station;
pub mod threshold;
pub mod two_ended;
