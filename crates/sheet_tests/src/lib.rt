#![tactic(auto)]

// The sheet, as tables of texts with calls and their answers. It has tests only.
#[cfg(test)]
mod alikes;
#[cfg(test)]
mod answers;
#[cfg(test)]
mod bounds;
#[cfg(test)]
mod examples;
#[cfg(test)]
mod lines;
#[cfg(test)]
mod looks;
#[cfg(test)]
mod played;
#[cfg(test)]
mod rates;
#[cfg(test)]
mod refused;
#[cfg(test)]
mod rows;
#[cfg(test)]
mod symbols;
#[cfg(test)]
mod texts;
