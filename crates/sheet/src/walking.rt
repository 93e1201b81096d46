// Walks from a place along a path, by what a solved memory says. These functions write nothing.
ghost use Rattle.std.specs.Prelude.{◌≡◌, ◌<◌, ◌≢◌, List, nat_eq};
ghost use Rattle.std.specs.List.{range_with_len};
ghost use Rattle.recipe.specs.Fillings.{Pair};
ghost use Rattle.recipe.specs.Links.{kind_of};
ghost use Rattle.recipe.specs.Numbering.{number_of};
ghost use Rattle.closure.specs.Walks.{Walks};
ghost use Rattle.sheet.specs.Solved.{Solved, written_table};

use crate::answers::non_hole;
use crate::layout::records_of;
use crate::seeing::{found_above, seen_from};
use crate::spots::{is_hole, label_at, part_at};
use recipe::Finding;

// What is found along a path from the place `p`, which is no hole: its label at the end of the path, or
// else what is found in the part at the first step.
#[cycle(walk)]
fn find_solid(
    memory: &[u32],
    size: usize,
    names: usize,
    leaves: usize,
    p: usize,
    path: &[u8],
) -> Finding
    requires solved { (told : List Pair) × Solved size names told memory.now }
    requires place { p < size }
    requires solid { kind_of ((written_table size memory.now).form p) ≢ 3 }
    ensures { (told : List Pair) → Solved size names told memory.now
        → Walks (written_table size memory.now) names told
        (number_of nat_eq (range_with_len 0 leaves)) p path.now result }
{
    let records = records_of(memory, size);
    match path.split_first() {
        None => Finding::Label(label_at(records, leaves, p)),
        Some((step, rest)) => match part_at(records, p, *step) {
            None => Finding::Absent,
            Some((part, binder)) => {
                let found = find(memory, size, names, leaves, part, rest);
                found_above(binder, found)
            }
        },
    }
}

// What is found along a path from the place `p`: at a hole, what is found at the lowest linked place that
// is none, seen from the hole, and open where all linked places are holes.
#[cycle(walk)]
pub(crate) fn find(
    memory: &[u32],
    size: usize,
    names: usize,
    leaves: usize,
    p: usize,
    path: &[u8],
) -> Finding
    requires solved { (told : List Pair) × Solved size names told memory.now }
    requires place { p < size }
    ensures { (told : List Pair) → Solved size names told memory.now
        → Walks (written_table size memory.now) names told
        (number_of nat_eq (range_with_len 0 leaves)) p path.now result }
{
    if !is_hole(records_of(memory, size), p) {
        return find_solid(memory, size, names, leaves, p, path);
    }
    match non_hole(memory, size, names, p) {
        None => Finding::Open,
        Some(shown) => {
            let found = find_solid(memory, size, names, leaves, shown, path);
            seen_from(memory, size, names, shown, p, found)
        }
    }
}
