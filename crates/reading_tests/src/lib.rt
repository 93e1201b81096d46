#![tactic(auto)]

// How texts are read, as tables of texts with what is reported of them or left in the lists. It has tests only.
#[cfg(test)]
mod examples;
#[cfg(test)]
mod limits;
#[cfg(test)]
mod lists;
#[cfg(test)]
mod rates;
#[cfg(test)]
mod refused;
#[cfg(test)]
mod reports;
#[cfg(test)]
mod samples;
#[cfg(test)]
mod scheme;
#[cfg(test)]
mod words;
