// Telling, in one memory.
ghost use Rattle.std.specs.Prelude.{◌≡◌, ℕ, ◌+◌, ◌*◌, ◌<◌, ◌≤◌, length, List, [], ◌∷◌, ◌++◌, drop, nat_eq, take};
ghost use Rattle.recipe.specs.Fillings.{Pair};
ghost use Rattle.recipe.specs.Histories.{accepted_pair};
ghost use Rattle.recipe.specs.Tables.{depth};
ghost use Rattle.recipe.specs.Marks.{refused_by};
ghost use Rattle.recipe.specs.Tells.{Decided, Tells, tell_fault};
ghost use Rattle.closure.specs.Decision.{WellFormed};
ghost use Rattle.sheet.specs.Layout.{KeepsPast, forests_length as forests_size, records, records_start, used};
ghost use Rattle.sheet.specs.Solved.{SlicesHold, SlicesHoldBefore, Solved, written_table};

use crate::forests::{enter_copy, tell_copy};
use crate::layout::{forests_length, forests_start, records_of};
use nodes::depth_of;
use recipe::Refusal;

// Writes a pair after the told ones.
fn write_pair(memory: &mut [u32], standing: usize, p: usize, q: usize)
    requires few { standing < 512 }
    requires room { records_start ≤ length memory.old }
    requires first { p < 512 }
    requires second { q < 512 }
    ensures pairs { take (2 * standing + 2) memory.new ≡ take (2 * standing) memory.old ++ (p ∷ q ∷ []) }
    ensures kept { drop records_start memory.new ≡ drop records_start memory.old }
{
    memory[2 * standing] = p as u32;
    memory[2 * standing + 1] = q as u32;
}

// Enters a told pair in both copies of the forests, and says what the pairs come to with it; refused, both are as before.
fn decide_slices(
    front: &mut [u32],
    first: &mut [u32],
    second: &mut [u32],
    size: usize,
    names: usize,
    standing: usize,
    p: usize,
    q: usize,
) -> Result<(), Refusal>
    requires long { length first.old ≡ forests_size size names }
    requires second_long { length second.old ≡ forests_size size names }
    requires hold { SlicesHoldBefore size names standing p q front.old first.old second.old }
    requires few { standing < 512 }
    requires places { (p < size) × (q < size) }
    ensures decided { (told : List Pair) → SlicesHold size names told front.old first.old second.old → WellFormed (written_table size front.old) names (told ++ ((p, q) ∷ [])) → Decided nat_eq (written_table size front.old) (told ++ ((p, q) ∷ [])) result }
    ensures hold { (told : List Pair) → length told ≡ standing → SlicesHold size names told front.old first.old second.old → SlicesHold size names (told ++ accepted_pair p q result) front.new first.new second.new }
    ensures records { records size front.new ≡ records size front.old }
{
    let answer = tell_copy(front, first, size, names, p, q);
    if answer.is_ok() {
        write_pair(front, standing, p, q);
        enter_copy(front, second, size, names, p, q);
    } else {
        first.copy_from_slice(second);
    }
    answer
}

// Enters a told pair, and says what the pairs come to with it; refused, the memory holds what it held.
fn decide_pair(
    memory: &mut [u32],
    size: usize,
    names: usize,
    standing: usize,
    p: usize,
    q: usize,
) -> Result<(), Refusal>
    requires solved { (told : List Pair) × (length told ≡ standing) × Solved size names told memory.old }
    requires few { standing < 512 }
    requires places { (p < size) × (q < size) }
    requires depths { depth (written_table size memory.old) p ≡ depth (written_table size memory.old) q }
    ensures decided { (told : List Pair) → length told ≡ standing → Solved size names told memory.old → Decided nat_eq (written_table size memory.old) (told ++ ((p, q) ∷ [])) result }
    ensures solved { (told : List Pair) → length told ≡ standing → Solved size names told memory.old → Solved size names (told ++ accepted_pair p q result) memory.new }
    ensures records { records size memory.new ≡ records size memory.old }
    ensures past { drop (used size names) memory.new ≡ drop (used size names) memory.old }
{
    let (front, forests) = memory.split_at_mut(forests_start(size));
    let (first, others) = forests.split_at_mut(forests_length(size, names));
    let (second, _) = others.split_at_mut(forests_length(size, names));
    decide_slices(front, first, second, size, names, standing, p, q)
}

// Why a tell is refused before what the pairs come to is asked, if it is.
fn test_tell(
    memory: &[u32],
    size: usize,
    standing: usize,
    p: usize,
    q: usize,
) -> Result<(), Refusal>
    requires solved { (names : ℕ) × (told : List Pair) × (length told ≡ standing) × Solved size names told memory.now }
    ensures { (told : List Pair) → length told ≡ standing → result ≡ refused_by (tell_fault (written_table size memory.now) told p q) }
{
    if p >= size {
        return Err(Refusal::NoSuchPlace { place: p });
    }
    if q >= size {
        return Err(Refusal::NoSuchPlace { place: q });
    }
    let words = records_of(memory, size);
    if depth_of(words, size, p) != depth_of(words, size, q) {
        return Err(Refusal::UnequalDepths {
            first: p,
            second: q,
        });
    }
    if standing >= 512 {
        return Err(Refusal::TooManyTells);
    }
    Ok(())
}

// The answer to telling that two places are equal, after some told pairs. Refused are a place past the end, two places of
// unequal depth, and a tell after 512; else it is accepted exactly where all pairs have a filling in common, and refused
// with the first cause where not. Accepted, the memory is solved for the pairs and the new one; refused, for the pairs as
// before.
pub(crate) fn tell(
    memory: &mut [u32],
    size: usize,
    names: usize,
    standing: usize,
    p: usize,
    q: usize,
) -> Result<(), Refusal>
    requires solved { (told : List Pair) × (length told ≡ standing) × Solved size names told memory.old }
    ensures told { (told : List Pair) → length told ≡ standing → Solved size names told memory.old → Tells nat_eq (written_table size memory.old) told p q result }
    ensures solved { (told : List Pair) → length told ≡ standing → Solved size names told memory.old → Solved size names (told ++ accepted_pair p q result) memory.new }
    ensures records { records size memory.new ≡ records size memory.old }
    ensures past { KeepsPast size names memory.old memory.new }
{
    test_tell(memory, size, standing, p, q)?;
    decide_pair(memory, size, names, standing, p, q)
}
