// What a reading fills.

// How many entries of each of the four lists a text fills.
#[derive(Clone, Copy, Debug, PartialEq, Eq)]
pub struct Counts {
    pub places: usize,
    pub names: usize,
    pub holes: usize,
    pub leaves: usize,
}
