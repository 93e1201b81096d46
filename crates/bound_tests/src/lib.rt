#![tactic(auto)]

// The spellings, the samenesses, the numbers, the printed forms, the check of tables and the reports at their bounds, as tables. It has tests only.
#[cfg(test)]
mod kinds;
#[cfg(test)]
mod labels;
#[cfg(test)]
mod packing;
#[cfg(test)]
mod rates;
#[cfg(test)]
mod refusals;
#[cfg(test)]
mod reports;
#[cfg(test)]
mod symbols;
#[cfg(test)]
mod tables;
