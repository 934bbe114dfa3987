// The backward walk by entry links: its moves and links, where it ends, and which stations' walks come to a station or meet a link.
#![tactic(auto)]

pub mod before;
pub mod branch;
mod entered;
pub mod entry;
pub mod walk;
