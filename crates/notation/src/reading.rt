// Recipes read from a text.
ghost use Rattle.std.specs.Prelude.{◌^◌, ◌≤◌, length};
ghost use Rattle.tokens.specs.Tokens.{tokens};
ghost use Rattle.notation.specs.Answering.{ReadableOrRefused};
ghost use Rattle.notation.specs.Progress.{room_for};
ghost use Rattle.notation.specs.Reading.{Reads};

use crate::counts::Counts;
use crate::leaf_words::{first_unread, write_leaves};
use crate::numbers::room;
use crate::tables::{clear, fill_tables};
use recipe::{Leaf, Place, Refusal};

// Fills the three lists from the recipes of a text, and reads its leaf words, for which there is so much room.
fn read_tables<L: Leaf>(
    text: &[u8],
    places: &mut [Place],
    names: &mut [u64],
    holes: &mut [u64],
    leaf_room: usize,
) -> Result<Counts, Refusal>
    requires { leaf_room ≤ 2 ^ 32 }
    ensures { ReadableOrRefused L.spells (room_for (length places.old) (length names.old) (length holes.old) leaf_room) (length text.now) (tokens text.now) places.new names.new holes.new result }
{
    let counts = fill_tables(text, places, names, holes, leaf_room)?;
    match first_unread::<L>(text) {
        None => Ok(counts),
        Some(offset) => Err(Refusal::UnreadLeaf { offset }),
    }
}

// Reads the recipes of a text into a table: its places, the spellings of its names and of its holes, and its leaves.
// What a list holds after what is filled is zero, but the leaf list stays there as it was. A refused text leaves zeros, and
// the leaf list as it was.
pub fn read_recipes<L: Leaf>(
    text: &[u8],
    places: &mut [Place],
    names: &mut [u64],
    holes: &mut [u64],
    leaves: &mut [L],
) -> Result<Counts, Refusal>
    ensures { Reads L.spells (length text.now) (tokens text.now) (record { places = places.old; names = names.old; holes = holes.old; leaves = leaves.old }) (record { places = places.new; names = names.new; holes = holes.new; leaves = leaves.new }) result }
{
    match read_tables::<L>(text, places, names, holes, room(leaves.len())) {
        Ok(counts) => {
            write_leaves(text, leaves);
            Ok(counts)
        }
        Err(why) => {
            clear(places, names, holes);
            Err(why)
        }
    }
}
