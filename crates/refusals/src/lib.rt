// What the planner refuses: an enum for each layer, and the number, the place and the layer by which each case is told.
#![tactic(auto)]

pub mod book;
pub mod check;
pub mod kind;
pub mod list;
pub mod net;
pub mod refusal;
pub mod told;
