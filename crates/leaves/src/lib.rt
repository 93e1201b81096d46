// The leaf kinds: symbols and rates.
#![tactic(auto)]

mod laws;
mod rate;
mod symbol;

pub use laws::{longest_words_are_read, rates_are_printed, symbols_are_printed};
pub use rate::Rate;
pub use symbol::Symbol;
