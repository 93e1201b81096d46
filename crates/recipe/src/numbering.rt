// The number of a leaf in a list: the lowest index of a same leaf.
ghost use Rattle.recipe.specs.Numbering.{Lowest, Numbered};

use crate::leaf::Leaf;

// The lowest index of a leaf of `leaves` that is the same as `leaf`, or none.
fn first_same<L: Leaf>(leaves: &[L], leaf: &L) -> Option<usize>
    ensures { Lowest L.equates leaves.now leaf.now result }
{
    leaves.iter().position(|other| other.same(leaf))
}

// The number of `leaf` in `leaves`: the lowest index of a same leaf, or none. A leaf of the list has one,
// and two of them have the same number exactly when they are the same.
pub fn leaf_number<L: Leaf>(leaves: &[L], leaf: &L) -> Option<usize>
    ensures { Numbered L.equates leaves.now leaf.now result }
{
    first_same(leaves, leaf)
}
