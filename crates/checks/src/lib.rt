// The check of a plan that anybody wrote: labels and entries are a tree of best paths, or they have a first fault.
#![tactic(auto)]

pub mod check;
mod entries;
mod fit;
mod gateway;
mod links;
mod same;
mod walking;
