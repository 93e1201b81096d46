// Opening a table in one memory.
ghost use Rattle.std.specs.Prelude.{◌≡◌, ◌<◌, ◌≤◌, length, [], Err, MatchResult};
ghost use Rattle.recipe.specs.Checking.{checked, name_count as names_of, needed};
ghost use Rattle.recipe.specs.Histories.{opening_answer};
ghost use Rattle.recipe.specs.declared.refusals.Refusal.{Refusal};
ghost use Rattle.recipe.specs.Validity.{Valid};
ghost use Rattle.nodes.specs.HoldersWritten.{HoldersWritten};
ghost use Rattle.sheet.specs.Opening.{Opened};
ghost use Rattle.sheet.specs.Layout.{KeepsPast, forests_length as forests_size, forests_start as start_of_forests, records};
ghost use Rattle.sheet.specs.Solved.{CopiesTable, SlicesHold, Solved};

use crate::forests::open_copy;
use crate::layout::{RECORDS_START, forests_length, forests_start};
use nodes::{write_holders, write_records};
use recipe::{Leaf, Place, Refusal, check, name_count};

// Writes the records of a table, a leaf by the number of the first leaf that is the same, and the holder of each place.
fn write_table<L: Leaf>(front: &mut [u32], places: &[Place], leaves: &[L])
    requires valid { Valid places.now leaves.now }
    requires room { start_of_forests (length places.now) ≤ length front.old }
    ensures copied { CopiesTable L.equates places.now leaves.now front.new }
    ensures holders { HoldersWritten (length places.now) (records (length places.now) front.new) }
{
    let size = places.len();
    let (_, rest) = front.split_at_mut(RECORDS_START);
    let (words, _) = rest.split_at_mut(8 * size);
    write_records(words, places, leaves);
    write_holders(words, size);
}

// Writes the table, and makes its forests before any tell, twice.
fn open_slices<L: Leaf>(
    front: &mut [u32],
    first: &mut [u32],
    second: &mut [u32],
    places: &[Place],
    leaves: &[L],
    names: usize,
)
    requires valid { Valid places.now leaves.now }
    requires named { names_of places.now ≤ names }
    requires few { names ≤ 64 }
    requires room { start_of_forests (length places.now) ≤ length front.old }
    requires long { length first.old ≡ forests_size (length places.now) names }
    requires second_long { length second.old ≡ forests_size (length places.now) names }
    ensures hold { SlicesHold (length places.now) names [] front.new first.new second.new }
    ensures copied { CopiesTable L.equates places.now leaves.now front.new }
{
    write_table(front, places, leaves);
    open_copy(front, first, places.len(), names);
    second.copy_from_slice(first);
}

// Opens a table in a memory with room for it: its records, and its forests before any tell, twice. A table without places
// asks nothing of the memory, and writes nothing. The answer is how many names the forests know.
pub(crate) fn open_memory<L: Leaf>(memory: &mut [u32], places: &[Place], leaves: &[L]) -> usize
    requires valid { Valid places.now leaves.now }
    requires room { 0 < length places.now → needed places.now ≤ length memory.old }
    ensures names { result ≡ names_of places.now }
    ensures solved { Solved (length places.now) result [] memory.new }
    ensures copied { CopiesTable L.equates places.now leaves.now memory.new }
    ensures past { KeepsPast (length places.now) result memory.old memory.new }
{
    let size = places.len();
    let names = name_count(places);
    if size == 0 {
        return names;
    }
    let (front, forests) = memory.split_at_mut(forests_start(size));
    let (first, others) = forests.split_at_mut(forests_length(size, names));
    let (second, _) = others.split_at_mut(forests_length(size, names));
    open_slices(front, first, second, places, leaves, names);
    names
}

// Opens a table, if it can be opened in this memory; if not, nothing is written.
pub(crate) fn open_checked<L: Leaf>(
    memory: &mut [u32],
    places: &[Place],
    leaves: &[L],
) -> Result<usize, Refusal>
    ensures opened { MatchResult result (λ names. Opened L.equates places.now leaves.now names memory.old memory.new) (λ refusal. (opening_answer (length memory.old) (checked places.now leaves.now) ≡ Err refusal) × (memory.new ≡ memory.old)) }
{
    let needed = check(places, leaves)?;
    if memory.len() < needed {
        return Err(Refusal::MemoryTooShort);
    }
    Ok(open_memory(memory, places, leaves))
}
