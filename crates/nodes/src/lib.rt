// The nodes of a table in lent words: its records, the forests over its places and its names, and what they say of told pairs.
#![tactic(auto)]

mod binders;
mod clash;
mod classes;
mod cycle;
mod heights;
mod likeness;
mod lowest_hole;
mod misnamed;
mod names;
mod opening;
mod partners;
mod places;
mod records;
mod scopes;
mod telling;
mod told;

pub use binders::tie_binders;
pub use clash::find_clash;
pub use classes::non_hole;
pub use cycle::find_cycle;
pub use likeness::alike;
pub use misnamed::find_misnamed;
pub use names::open_names;
pub use opening::open_forests;
pub use partners::joined_name;
pub use places::{open_places, tell_places};
pub use records::write_records;
pub use scopes::{depth_of, equal_name, write_holders};
pub use telling::{enter_pair, tell_pair};
pub use told::tell_names;
