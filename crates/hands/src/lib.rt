// What a site holds beside its net, in any kind of grade: a book and its memory, and the commands of a script that ask something of them.
#![tactic(auto)]

pub mod act;
pub mod ask;
pub mod call;
pub mod check;
pub mod fresh;
pub mod holding;
pub mod memory;
pub mod obey;
