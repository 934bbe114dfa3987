// The law of runs.
#![tactic(auto)]

pub mod law;
