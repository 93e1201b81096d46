// The tokens of a text: words, parentheses and nil, and the reader that takes them off its front.
#![tactic(auto)]

mod classes;
mod fronts;
mod laws;
mod words;

pub use classes::Class;
pub use laws::tokens_are_exact;
pub use words::{Piece, Words};
