// The net: stations and one-way links as a forward star over the caller's two lists.
#![tactic(auto)]

pub mod star;
