// What a line of a site script asks for and what it answers: commands by their words, answers, troubles, and their text.
#![tactic(auto)]

pub mod answer;
pub mod fault;
pub mod trouble;
pub mod values;
pub mod verb;
