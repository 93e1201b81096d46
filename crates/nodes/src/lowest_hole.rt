// The lowest hole at or under a place.
ghost use Rattle.std.specs.Prelude.{◌≡◌, ◌<◌};
ghost use Rattle.recipe.specs.Validity.{Ordered};
ghost use Rattle.nodes.specs.LowestHoles.{FindsHole, lower_of};
ghost use Rattle.nodes.specs.Records.{HasRows, written};

use crate::clash::kind_at;
use recipe::Kind;

// The lower of two numbers, where each may be missing.
pub(crate) fn lower(a: Option<usize>, b: Option<usize>) -> Option<usize>
    ensures { result ≡ lower_of a b }
{
    match (a, b) {
        (Some(x), Some(y)) if y < x => Some(y),
        (Some(x), _) => Some(x),
        (None, found) => found,
    }
}

// The lowest hole at or under `p`, or none, by a search of the places under it.
pub(crate) fn lowest_hole(words: &[u32], size: usize, p: usize) -> Option<usize>
    requires rows { HasRows size words.now }
    requires ordered { Ordered (written size words.now) }
    requires place { p < size }
    ensures { FindsHole (written size words.now) p result }
{
    let first = words[8 * p + 1] as usize;
    let second = words[8 * p + 2] as usize;
    match kind_at(words, p) {
        Kind::Hole => Some(p),
        Kind::Bind => lowest_hole(words, size, second),
        Kind::Call => lower(
            lowest_hole(words, size, first),
            lowest_hole(words, size, second),
        ),
        Kind::Nil | Kind::Leaf | Kind::Name => None,
    }
}
