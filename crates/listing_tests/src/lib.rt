#![tactic(auto)]

// Texts with what comes of them, as tables. It has tests only.
#[cfg(test)]
mod listed;
#[cfg(test)]
mod rates;
#[cfg(test)]
mod symbols;
