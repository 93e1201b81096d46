// The two forests of a memory, with the words that stand before them.
ghost use Rattle.std.specs.Prelude.{◌≡◌, ℕ, ◌+◌, ◌*◌, ◌<◌, ◌≤◌, suc, length, List, [], ◌∷◌, ◌++◌, Ok, nat_eq, take};
ghost use Rattle.recipe.specs.Fillings.{Pair};
ghost use Rattle.recipe.specs.Tells.{Decided};
ghost use Rattle.closure.specs.Decision.{WellFormed};
ghost use Rattle.sheet.specs.Layout.{forests_length, forests_start, marks_start};
ghost use Rattle.sheet.specs.Solved.{EnteredIn, EnteredInBefore, HasTable, written_table};

use crate::layout::{marks_start, records_of};
use nodes::{enter_pair, open_forests, tell_pair};
use recipe::Refusal;

// Makes the forests, before any tell.
pub(crate) fn open_copy(front: &mut [u32], forests: &mut [u32], size: usize, names: usize)
    requires table { HasTable size names front.old }
    requires long { length forests.old ≡ forests_length size names }
    ensures entered { EnteredIn (written_table size front.old) names [] forests.new }
    ensures kept { take (marks_start size) front.new ≡ take (marks_start size) front.old }
{
    let (before, marks) = front.split_at_mut(marks_start(size));
    let words = records_of(before, size);
    let (rows, names_rows) = forests.split_at_mut(4 * size);
    open_forests(rows, names_rows, words, size, names, marks);
}

// Enters a told pair in the forests.
pub(crate) fn enter_copy(
    front: &mut [u32],
    forests: &mut [u32],
    size: usize,
    names: usize,
    p: usize,
    q: usize,
)
    requires table { HasTable size names front.old }
    requires long { length forests.old ≡ forests_length size names }
    requires entered { (told : List Pair) × EnteredIn (written_table size front.old) names told forests.old }
    requires first { p < size }
    requires second { q < size }
    ensures entered { (told : List Pair) → EnteredIn (written_table size front.old) names told forests.old → EnteredIn (written_table size front.old) names (told ++ ((p, q) ∷ [])) forests.new }
    ensures kept { take (marks_start size) front.new ≡ take (marks_start size) front.old }
{
    let (before, marks) = front.split_at_mut(marks_start(size));
    let words = records_of(before, size);
    let (rows, names_rows) = forests.split_at_mut(4 * size);
    enter_pair(rows, names_rows, words, size, names, marks, p, q);
}

// Enters a told pair in the forests, and says what the pairs come to with it; refused, the forests are not to be used on.
pub(crate) fn tell_copy(
    front: &mut [u32],
    forests: &mut [u32],
    size: usize,
    names: usize,
    p: usize,
    q: usize,
) -> Result<(), Refusal>
    requires table { HasTable size names front.old }
    requires long { length forests.old ≡ forests_length size names }
    requires entered { EnteredInBefore (written_table size front.old) names p q forests.old }
    requires first { p < size }
    requires second { q < size }
    ensures decided { (told : List Pair) → WellFormed (written_table size front.old) names (told ++ ((p, q) ∷ [])) → EnteredIn (written_table size front.old) names told forests.old → Decided nat_eq (written_table size front.old) (told ++ ((p, q) ∷ [])) result }
    ensures entered { (told : List Pair) → EnteredIn (written_table size front.old) names told forests.old → result ≡ Ok tt → EnteredIn (written_table size front.old) names (told ++ ((p, q) ∷ [])) forests.new }
    ensures kept { take (marks_start size) front.new ≡ take (marks_start size) front.old }
{
    let (before, marks) = front.split_at_mut(marks_start(size));
    let words = records_of(before, size);
    let (rows, names_rows) = forests.split_at_mut(4 * size);
    tell_pair(rows, names_rows, words, size, names, marks, p, q)
}
