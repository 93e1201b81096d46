// Looking, in one memory.
ghost use Rattle.std.specs.Prelude.{◌≡◌, ℕ, List, nat_eq};
ghost use Rattle.std.specs.List.{range_with_len};
ghost use Rattle.recipe.specs.Fillings.{Pair};
ghost use Rattle.recipe.specs.Looks.{Looks, unknown_step};
ghost use Rattle.sheet.specs.Solved.{Solved, written_table};

use crate::walking::find;
use recipe::{Finding, Refusal};

// The first index of a step above 2, if there is one.
fn first_unknown_step(path: &[u8]) -> Option<usize>
    ensures { result ≡ unknown_step path.now }
{
    for (index, step) in path.iter().enumerate() {
        if *step > 2 {
            return Some(index);
        }
    }
    None
}

// What stands at the end of a path from a place, under all fillings of the told pairs, of a table with leaves
// from a list of `leaves`. Every step is tested before the first is taken.
pub(crate) fn look(
    memory: &[u32],
    size: usize,
    names: usize,
    leaves: usize,
    place: usize,
    path: &[u8],
) -> Result<Finding, Refusal>
    requires solved { (told : List Pair) × Solved size names told memory.now }
    ensures { (told : List Pair) → Solved size names told memory.now
        → Looks nat_eq (written_table size memory.now) (range_with_len 0 leaves) told
        place path.now result }
{
    if place >= size {
        return Err(Refusal::NoSuchPlace { place });
    }
    match first_unknown_step(path) {
        Some(index) => Err(Refusal::UnknownStep { index }),
        None => Ok(find(memory, size, names, leaves, place, path)),
    }
}
