// Union-find over lent words: a forest whose roots are the lowest of their class, and remember a part of the class for each side.
#![tactic(auto)]

mod joining;
mod rows;

pub use joining::join;
pub use rows::{find, part_of, shorten};
