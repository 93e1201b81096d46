// The whole way from a text to the answers: its recipes are read, told in pairs, and the holes looked at.
#![tactic(auto)]

mod answers;
mod lines;
mod roots;
mod text;

pub use text::listing;
