// What a solved memory says of its table. These functions write nothing.
ghost use Rattle.std.specs.Prelude.{◌<◌, List};
ghost use Rattle.recipe.specs.Fillings.{Pair};
ghost use Rattle.nodes.specs.JoinedNames.{FindsJoined};
ghost use Rattle.nodes.specs.NonHoles.{FindsNonHole};
ghost use Rattle.sheet.specs.Solved.{Solved, written_table};

use crate::layout::{first_rows, records_of};

// The lowest place that is linked with `p` and is no hole, or none where only holes are, so that the class is open.
pub(crate) fn non_hole(memory: &[u32], size: usize, names: usize, p: usize) -> Option<usize>
    requires solved { (told : List Pair) × Solved size names told memory.now }
    requires place { p < size }
    ensures { (told : List Pair) → Solved size names told memory.now → FindsNonHole (written_table size memory.now) told p result }
{
    let (rows, _) = first_rows(memory, size, names);
    nodes::non_hole(rows, records_of(memory, size), size, p)
}

// The lowest name of `q` that is joined with the name `x` of `p`, if one is.
pub(crate) fn joined_name(
    memory: &[u32],
    size: usize,
    names: usize,
    p: usize,
    x: usize,
    q: usize,
) -> Option<usize>
    requires solved { (told : List Pair) × Solved size names told memory.now }
    requires first { p < size }
    requires second { q < size }
    requires name { x < names }
    ensures { (told : List Pair) → Solved size names told memory.now → FindsJoined (written_table size memory.now) names told p x q result }
{
    let (_, names_rows) = first_rows(memory, size, names);
    nodes::joined_name(names_rows, size, names, p, x, q)
}
