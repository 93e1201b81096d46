// Calls on a sheet, each with room for its answer.
use recipe::{Finding, Refusal};

/// Two places that are told to be equal, and the answer to it. What stands as the answer before it is given is not read.
#[derive(Clone, Copy, Debug, PartialEq, Eq)]
pub struct Tell {
    /// the one place
    pub first: usize,
    /// the other
    pub second: usize,
    /// accepted, or why not
    pub answer: Result<(), Refusal>,
}

/// A place that is looked at along a path, and the answer to it. What stands as the answer before it is given is not read.
#[derive(Clone, Copy, Debug, PartialEq, Eq)]
pub struct Look<'p> {
    /// where the path starts
    pub place: usize,
    /// its steps: 0 left, 1 right, 2 inside
    pub path: &'p [u8],
    /// what was found, or why that is refused
    pub answer: Result<Finding, Refusal>,
}

/// A call on an open sheet, with its answer.
#[derive(Clone, Copy, Debug, PartialEq, Eq)]
pub enum Call<'p> {
    /// two places are to be equal
    Tell(Tell),
    /// what stands at the end of a path
    Look(Look<'p>),
}

/// The calls on one sheet: tells and looks in any order, and then nothing, or a seal and looks after it. Calls that an open or a
/// sealed sheet does not have cannot be written here.
#[derive(Drop)]
pub struct Calls<'p> {
    /// the calls on the open sheet
    pub calls: Vec<Call<'p>>,
    /// the looks after the seal, if the sheet is sealed
    pub sealed: Option<Vec<Look<'p>>>,
}
