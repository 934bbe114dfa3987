// Paths over a net: their grades under every kind, and the simple ones.
#![tactic(auto)]

pub mod grade;
mod leaves;
pub mod simple;
