// The worked examples: recipes that are told to be equal, and what comes of it.
#![tactic(auto)]

mod specimen;

pub use specimen::{Call, Specimen, specimens};
