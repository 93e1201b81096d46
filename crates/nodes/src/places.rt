// The forest over the places of a table.
ghost use Rattle.std.specs.Prelude.{◌≡◌, ◌≤◌, ◌<◌, ◌+◌, ◌*◌, ◌↔◌, [], length, true};
ghost use Rattle.forest.specs.Exact.{Exact};
ghost use Rattle.forest.specs.Rows.{IsNode, Rows, node_or_none};
ghost use Rattle.recipe.specs.Common.{Least};
ghost use Rattle.recipe.specs.Tables.{Form};
ghost use Rattle.recipe.specs.Validity.{Ordered};
ghost use Rattle.nodes.specs.PlaceClasses.{PlacesJoined, RootsLink, SomeJoined, TellsMore, place_parts};
ghost use Rattle.nodes.specs.Records.{HasRows, written, written_form};
ghost use Rattle.nodes.specs.Starting.{FewParts, OwnRow, SameBelow, written_part};

use forest::join;
use recipe::Kind;

// For each side one more than the part of a place there, or 0 for none.
fn part_words(words: &[u32], p: usize) -> (u32, u32, u32)
    requires row { 8 * p + 2 < length words.now }
    requires few { FewParts words.now p }
    ensures left { node_or_none result.0 ≡ written_part words.now p 0 }
    ensures right { node_or_none result.1 ≡ written_part words.now p 1 }
    ensures inside { node_or_none result.2 ≡ written_part words.now p 2 }
{
    match Kind::try_from(words[8 * p]) {
        Ok(Kind::Bind) => (0, 0, words[8 * p + 2] + 1),
        Ok(Kind::Call) => (words[8 * p + 1] + 1, words[8 * p + 2] + 1, 0),
        _ => (0, 0, 0),
    }
}

// Makes a place a node of its own, with its parts.
fn write_row(rows: &mut [u32], words: &[u32], p: usize)
    requires node { IsNode rows.old p }
    requires row { 8 * p + 2 < length words.now }
    requires low { p < 512 }
    requires few { FewParts words.now p }
    ensures own { OwnRow words.now rows.new p }
    ensures below { SameBelow p rows.old rows.new }
{
    let (left, right, inside) = part_words(words, p);
    rows[4 * p] = p as u32;
    rows[4 * p + 1] = left;
    rows[4 * p + 2] = right;
    rows[4 * p + 3] = inside;
}

// Makes each place a node of its own, with its parts.
fn init_rows(rows: &mut [u32], words: &[u32], size: usize)
    requires few { size ≤ 512 }
    requires long { length rows.old ≡ 4 * size }
    requires rows { HasRows size words.now }
    requires ordered { Ordered (written size words.now) }
    ensures { Exact (place_parts (written size words.now)) [] rows.new }
{
    for p in 0..size {
        write_row(rows, words, p);
    }
}

// Whether a place is the hole of a number.
pub(crate) fn is_hole(words: &[u32], p: usize, number: u32) -> bool
    requires { 8 * p + 2 < length words.now }
    ensures { (result ≡ true) ↔ (written_form words.now p ≡ Form.hole number) }
{
    words[8 * p] == Kind::Hole as u32 && words[8 * p + 1] == number
}

// The lowest place that is the hole of a number, where `p` is one.
pub(crate) fn first_of_hole(words: &[u32], number: u32, p: usize) -> usize
    requires row { 8 * p + 2 < length words.now }
    requires here { written_form words.now p ≡ Form.hole number }
    ensures { Least (λ q. written_form words.now q ≡ Form.hole number) result }
{
    for q in 0..p {
        if is_hole(words, q, number) {
            return q;
        }
    }
    p
}

// Joins the places of each hole, each of them with the lowest.
fn join_holes(rows: &mut [u32], words: &[u32], size: usize)
    requires long { length rows.old ≡ 4 * size }
    requires rows { HasRows size words.now }
    requires exact { Exact (place_parts (written size words.now)) [] rows.old }
    ensures { PlacesJoined (written size words.now) [] rows.new }
{
    for p in 0..size {
        let number = words[8 * p + 1];
        if is_hole(words, p, number) {
            let first = first_of_hole(words, number, p);
            join(rows, first, p);
        }
    }
}

// Makes the forest of a table of `size` places before any tell: a node for each place, and places of one hole joined.
pub fn open_places(rows: &mut [u32], words: &[u32], size: usize)
    requires few { size ≤ 512 }
    requires long { length rows.old ≡ 4 * size }
    requires rows { HasRows size words.now }
    requires ordered { Ordered (written size words.now) }
    ensures joined { PlacesJoined (written size words.now) [] rows.new }
    ensures roots { RootsLink (written size words.now) [] rows.new }
{
    init_rows(rows, words, size);
    join_holes(rows, words, size);
}

// Joins two places that are told to be equal, and with them their parts.
pub fn tell_places(rows: &mut [u32], p: usize, q: usize)
    requires rows { Rows rows.old }
    requires first { IsNode rows.old p }
    requires second { IsNode rows.old q }
    requires joined { SomeJoined rows.old }
    ensures { TellsMore p q rows.old rows.new }
{
    join(rows, p, q);
}
