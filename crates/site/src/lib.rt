// A site at work: the commands of a site script carried out on a net and what is held beside it.
#![tactic(auto)]

pub mod desk;
mod held;
mod plot;
mod way;
