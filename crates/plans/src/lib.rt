// Plans, which have a label and an entry for each station: whether one fits its net, which are trees of best paths, and their faults.
#![tactic(auto)]

pub mod fits;
