// Recipes read from a text: the grammar, the refusals, and the table that a text spells.
#![tactic(auto)]

mod atoms;
mod counts;
mod leaf_words;
mod lent_lists;
mod meaning;
mod numbers;
mod pieces;
mod reading;
mod recipes;
mod tables;
mod valid_tables;

pub use counts::Counts;
pub use meaning::read_tables_mean_their_recipes;
pub use reading::read_recipes;
pub use valid_tables::read_tables_are_valid;
