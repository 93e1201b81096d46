// Finding places that clash.
ghost use Rattle.std.specs.Prelude.{◌≡◌, ℕ, ◌+◌, ◌*◌, ◌<◌, ◌≤◌, ◌↔◌, length, true, false, nat_eq};
ghost use Rattle.forest.specs.Rows.{IsNode, Rows};
ghost use Rattle.recipe.specs.Kinds.{code_of};
ghost use Rattle.recipe.specs.Links.{Differ, kind_of};
ghost use Rattle.nodes.specs.Clashes.{FindsClash};
ghost use Rattle.nodes.specs.Opposed.{HasRow, Marked, Opposed, SomeOpposed, marked_for};
ghost use Rattle.nodes.specs.Searches.{LowestBelow};
ghost use Rattle.nodes.specs.PlaceClasses.{PlacesJoined, RootsLink, SomePlacesJoined};
ghost use Rattle.nodes.specs.Records.{HasRows, written, written_form};

use forest::find;
use recipe::Kind;

// The kind of what stands at a place.
pub(crate) fn kind_at(words: &[u32], p: usize) -> Kind
    requires { HasRow words.now p }
    ensures { code_of result ≡ kind_of (written_form words.now p) }
{
    Kind::try_from(words[8 * p]).unwrap_or(Kind::Nil)
}

// Whether neither place is a hole, and their kinds differ, or they are leaves with different numbers.
fn differ(words: &[u32], p: usize, q: usize) -> bool
    requires first { HasRow words.now p }
    requires second { HasRow words.now q }
    ensures { (result ≡ true) ↔ Differ nat_eq (written_form words.now p) (written_form words.now q) }
{
    let first = kind_at(words, p);
    let second = kind_at(words, q);
    if first == Kind::Hole || second == Kind::Hole {
        return false;
    }
    first != second || first == Kind::Leaf && words[8 * p + 1] != words[8 * q + 1]
}

// The lowest place that has one root with `p` and differs from it, if any does.
fn partner(rows: &[u32], words: &[u32], size: usize, p: usize) -> Option<usize>
    requires forest { Rows rows.now }
    requires long { length rows.now ≡ 4 * size }
    requires rows { HasRows size words.now }
    requires place { p < size }
    ensures { LowestBelow size (Opposed rows.now words.now p) result }
{
    let root = find(rows, p);
    for q in 0..size {
        if differ(words, p, q) && find(rows, q) == root {
            return Some(q);
        }
    }
    None
}

// The lowest place that clashes with another, and the lowest that it clashes with, if any do, by a search of all pairs.
fn search_clash(rows: &[u32], words: &[u32], size: usize) -> Option<(usize, usize)>
    requires forest { Rows rows.now }
    requires long { length rows.now ≡ 4 * size }
    requires rows { HasRows size words.now }
    requires joined { SomePlacesJoined (written size words.now) rows.now }
    ensures { (told : _) → PlacesJoined (written size words.now) told rows.now → RootsLink (written size words.now) told rows.now → FindsClash (written size words.now) told result }
{
    for p in 0..size {
        if let Some(q) = partner(rows, words, size, p) {
            return Some((p, q));
        }
    }
    None
}

// The place that is marked for a root, or none.
pub(crate) fn marked_for(marks: &[u32], root: usize) -> Option<usize>
    requires { root < length marks.now }
    ensures { result ≡ marked_for marks.now root }
{
    (marks[root] as usize).checked_sub(1)
}

// Whether a place differs from the place that is marked for its root. If none is, the place is marked itself, unless it is a hole.
fn differs_from_marked(rows: &[u32], words: &[u32], marks: &mut [u32], p: usize) -> bool
    requires forest { Rows rows.now }
    requires node { IsNode rows.now p }
    requires row { HasRow words.now p }
    requires few { p < 512 }
    requires room { p < length marks.old }
    requires lower { Marked rows.now words.now p marks.old }
    ensures differs { result ≡ true → (q : ℕ) × (q < p) × Opposed rows.now words.now q p }
    ensures marked { result ≡ false → Marked rows.now words.now (p + 1) marks.new }
{
    if kind_at(words, p) == Kind::Hole {
        return false;
    }
    let root = find(rows, p);
    if let Some(first) = marked_for(marks, root) {
        return differ(words, first, p);
    }
    marks[root] = p as u32 + 1;
    false
}

// Whether two places with one root differ, by one pass: whether some place differs from the one that is marked for its root.
fn has_clash(rows: &[u32], words: &[u32], size: usize, marks: &mut [u32]) -> bool
    requires few { size ≤ 512 }
    requires forest { Rows rows.now }
    requires long { length rows.now ≡ 4 * size }
    requires rows { HasRows size words.now }
    requires room { size ≤ length marks.old }
    ensures { (result ≡ true) ↔ SomeOpposed size rows.now words.now }
{
    marks.fill(0);
    for p in 0..size {
        if differs_from_marked(rows, words, marks, p) {
            return true;
        }
    }
    false
}

// The lowest place that clashes with another, and the lowest that it clashes with, if any do. Where none do, that costs one
// pass, which marks places in the lent `marks`.
pub fn find_clash(
    rows: &[u32],
    words: &[u32],
    size: usize,
    marks: &mut [u32],
) -> Option<(usize, usize)>
    requires few { size ≤ 512 }
    requires forest { Rows rows.now }
    requires long { length rows.now ≡ 4 * size }
    requires rows { HasRows size words.now }
    requires room { size ≤ length marks.old }
    requires joined { SomePlacesJoined (written size words.now) rows.now }
    ensures { (told : _) → PlacesJoined (written size words.now) told rows.now → RootsLink (written size words.now) told rows.now → FindsClash (written size words.now) told result }
{
    if !has_clash(rows, words, size, marks) {
        return None;
    }
    search_clash(rows, words, size)
}
