// How a text is read, as a report that a person can read.
#![tactic(auto)]

mod laws;
mod lines;
mod report;

pub use laws::reports_are_unique;
pub use report::report_on;
