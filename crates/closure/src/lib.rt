// The mathematics of matching: which pairs of places have a common filling, and what all their fillings have in common.
#![tactic(auto)]

mod decision;

pub use decision::{
    causes_are_found, leaves_do_not_matter, matching_is_decided, valid_tables_are_well_formed,
    walks_are_exact,
};
