// Which rates of a text are the same, as a report that a person can read.
#![tactic(auto)]

mod counts;
mod limit;
mod report;
mod words;

pub use report::{LIMIT, report_on};
