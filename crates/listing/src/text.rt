// The listing of a text.
ghost use Rattle.std.specs.Prelude.{◌≤◌, length};
ghost use Rattle.listing.specs.Lists.{AddsListed, AddsLists, AddsRead, Listing};

use crate::answers::{look_at_holes, tell_pairs};
use crate::lines::{Lines, SIZE, put_refused_text};
use crate::roots::{PLACES, roots};
use notation::read_recipes;
use recipe::{Leaf, Place, Refusal};
use sheet::open;

// The most names, holes and leaves that a listing has.
const NAMES: usize = 16;

const HOLES: usize = 64;

const LEAVES: usize = 64;

// The words of a sheet with so many places and names.
const WORDS: usize = PLACES * (8 * NAMES + 64) + 1024;

// Adds the lines of a table: its roots are told in pairs, and its holes looked at.
fn list_table<L: Leaf>(
    places: &[Place],
    leaves: &[L],
    names: &[u64],
    holes: &[u64],
    lines: &mut Lines,
)
    requires few { length places.now ≤ 64 }
    requires few_holes { length holes.now ≤ 64 }
    ensures { AddsListed L.equates places.now leaves.now names.now holes.now lines.old.items lines.new.items }
{
    let mut memory = [0; WORDS];
    let mut sheet = open(places, leaves, &mut memory);
    tell_pairs(&mut sheet, &roots(places), lines);
    look_at_holes(&sheet, places, names, holes, 0, lines);
}

// Adds the lines of a text that is not too long.
fn list_text<L: Leaf>(text: &[u8], leaves: &mut [L], lines: &mut Lines)
    requires { length leaves.old ≤ 64 }
    ensures { AddsRead L.spells L.equates text.now leaves.old leaves.new lines.old.items lines.new.items }
{
    let nil = Place {
        kind: 0,
        a: 0,
        b: 0,
    };
    let mut places = [nil; PLACES];
    let mut names = [0; NAMES];
    let mut holes = [0; HOLES];
    match read_recipes(text, &mut places, &mut names, &mut holes, leaves) {
        Ok(counts) => list_table(
            &places[..counts.places],
            &leaves[..counts.leaves],
            &names[..counts.names],
            &holes[..counts.holes],
            lines,
        ),
        Err(refusal) => put_refused_text(lines, &refusal),
    }
}

// Adds the lines of a text.
fn list<L: Leaf>(text: &[u8], leaves: &mut [L], lines: &mut Lines)
    ensures { AddsLists L.spells L.equates text.now leaves.old leaves.new lines.old.items lines.new.items }
{
    if text.len() > SIZE {
        put_refused_text(lines, &Refusal::NoRoom { offset: SIZE });
        return;
    }
    let (first, _) = leaves.split_at_mut(leaves.len().min(LEAVES));
    list_text(text, first, lines);
}

/// Lists what comes of a text: reads its recipes, tells the first and the second, the third and the fourth, and so on, looks at
/// each hole, and writes a line for each answer. The result is how many bytes are written; the rest of the buffer is zeroed.
///
/// There is room for 64 places, 16 names, 64 holes, and as many leaves as the lent list has, but at most 64; the leaves that the
/// text spells are written to it. A text of more than 4,096 bytes, or one that is not read, gives one line, `text refused` with
/// the number and the offset (21 to 25), and leaves the list as it was. docs/RULES.md, "Listings".
pub fn listing<L: Leaf>(text: &[u8], leaves: &mut [L], out: &mut [u8; 4096]) -> usize
    ensures listing { Listing L.spells L.equates text.now leaves.old leaves.new out.new result }
    ensures within { result ≤ 4096 }
{
    let mut lines = Lines::new();
    list(text, leaves, &mut lines);
    let written = lines.len();
    *out = [0; SIZE];
    let (front, _) = out.split_at_mut(written);
    front.copy_from_slice(&lines);
    written
}
