// The three lists of a text: places, names and holes.
ghost use Rattle.std.specs.Prelude.{◌≡◌, ◌^◌, ◌≤◌, length, replicate};
ghost use Rattle.tokens.specs.Tokens.{tokens};
ghost use Rattle.notation.specs.LentLists.{Sound, Stays};
ghost use Rattle.notation.specs.Fitting.{Room};
ghost use Rattle.notation.specs.Progress.{Progress, TabledOrHalted, room_for};
ghost use Rattle.notation.specs.Tables.{row};

use crate::counts::Counts;
use crate::lent_lists::LentLists;
use crate::recipes::recipe;
use recipe::{Place, Refusal};
use tokens::Words;

// Takes the recipes of a whole text, and says how much of the lists they fill.
fn take_recipes(text: &[u8], lists: &mut LentLists) -> Result<Counts, Refusal>
    requires { Sound lists.old }
    ensures stays { Stays lists.old lists.new }
    ensures taken { (most : Room) → Progress most (length text.now) (tokens text.now) (tokens text.now) lists.old → TabledOrHalted most (length text.now) (tokens text.now) lists.new.places.now lists.new.names.now lists.new.holes.now result }
{
    let mut words = Words::new(text);
    while let Some(first) = words.next() {
        recipe(first, &mut words, lists, 0)?;
    }
    Ok(lists.counts)
}

// Sets the three lists to zero.
pub(crate) fn clear(places: &mut [Place], names: &mut [u64], holes: &mut [u64])
    ensures places { places.new ≡ replicate (length places.old) (row 0 0 0) }
    ensures names { names.new ≡ replicate (length names.old) 0 }
    ensures holes { holes.new ≡ replicate (length holes.old) 0 }
{
    places.fill(Place {
        kind: 0,
        a: 0,
        b: 0,
    });
    names.fill(0);
    holes.fill(0);
}

// Fills the three lists from the recipes of a text, with zeros after what is filled, and counts the leaves, for which there is so much room.
pub(crate) fn fill_tables(
    text: &[u8],
    places: &mut [Place],
    names: &mut [u64],
    holes: &mut [u64],
    leaf_room: usize,
) -> Result<Counts, Refusal>
    requires { leaf_room ≤ 2 ^ 32 }
    ensures { TabledOrHalted (room_for (length places.old) (length names.old) (length holes.old) leaf_room) (length text.now) (tokens text.now) places.new names.new holes.new result }
{
    clear(places, names, holes);
    let mut lists = LentLists {
        places,
        names,
        holes,
        leaf_room,
        counts: Counts {
            places: 0,
            names: 0,
            holes: 0,
            leaves: 0,
        },
    };
    take_recipes(text, &mut lists)
}
