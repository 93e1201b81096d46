// Finding name places that are spoiled.
ghost use Rattle.std.specs.Prelude.{◌≡◌, ◌≢◌, ℕ, suc, ◌+◌, ◌*◌, ◌<◌, ◌≤◌, ◌↔◌, List, Some, length, true, false};
ghost use Rattle.recipe.specs.Fillings.{Pair};
ghost use Rattle.recipe.specs.Tables.{Form};
ghost use Rattle.closure.specs.Decision.{WellFormed};
ghost use Rattle.forest.specs.Rows.{IsNode, Rows};
ghost use Rattle.nodes.specs.MisnamedRoots.{ApartFrom, DoubleRoot, MarkedNames, MisnamedRoot, NamesBelow, SpoiledRoot, name_of_form, name_root};
ghost use Rattle.nodes.specs.Misnaming.{FindsMisnamed, SomeRoots};
ghost use Rattle.nodes.specs.NameClasses.{RootsJoin};
ghost use Rattle.nodes.specs.Opposed.{HasRow};
ghost use Rattle.nodes.specs.PlaceClasses.{RootsLink};
ghost use Rattle.nodes.specs.Records.{HasRows, written, written_form};
ghost use Rattle.nodes.specs.Searches.{LowestBelow};

use crate::clash::marked_for;
use crate::names::node_of;
use forest::find;
use recipe::Kind;

// The name of a name place, or none where the place is no name.
fn name_of(words: &[u32], p: usize) -> Option<usize>
    requires { HasRow words.now p }
    ensures { result ≡ name_of_form (written_form words.now p) }
{
    match Kind::try_from(words[8 * p]) {
        Ok(Kind::Name) => Some(words[8 * p + 1] as usize),
        _ => None,
    }
}

// The root of the name `x` at the place `p`.
pub(crate) fn root_of_name(names_rows: &[u32], names: usize, p: usize, x: usize) -> usize
    requires low { p < 512 }
    requires few { names ≤ 64 }
    requires forest { Rows names_rows.now }
    requires nodes { 4 * suc (p * names + names) ≤ length names_rows.now }
    requires name { x < names }
    ensures { result ≡ name_root names_rows.now names p x }
{
    find(names_rows, node_of(names, p, x))
}

// Whether another name of the place `p` has the root of its name `x`.
fn is_double(names_rows: &[u32], names: usize, p: usize, x: usize) -> bool
    requires low { p < 512 }
    requires few { names ≤ 64 }
    requires forest { Rows names_rows.now }
    requires nodes { 4 * suc (p * names + names) ≤ length names_rows.now }
    requires name { x < names }
    ensures { (result ≡ true) ↔ DoubleRoot names_rows.now names p x }
{
    let root = root_of_name(names_rows, names, p, x);
    for y in 0..names {
        if y != x && root_of_name(names_rows, names, p, y) == root {
            return true;
        }
    }
    false
}

// Whether `q` is a name place with the root of the place `p`, and its name has another root than the name `x` of `p`.
fn is_apart_from(
    names_rows: &[u32],
    rows: &[u32],
    words: &[u32],
    names: usize,
    p: usize,
    x: usize,
    q: usize,
) -> bool
    requires low { p < 512 }
    requires lower { q < p }
    requires few { names ≤ 64 }
    requires forest { Rows rows.now }
    requires node { IsNode rows.now p }
    requires names_forest { Rows names_rows.now }
    requires nodes { 4 * suc (p * names + names) ≤ length names_rows.now }
    requires row { HasRow words.now p }
    requires named { NamesBelow names words.now p }
    requires name { x < names }
    ensures { (result ≡ true) ↔ ApartFrom names_rows.now rows.now words.now names p x q }
{
    match name_of(words, q) {
        Some(y) => {
            find(rows, q) == find(rows, p)
                && root_of_name(names_rows, names, q, y) != root_of_name(names_rows, names, p, x)
        }
        None => false,
    }
}

// Whether the name `x` of the place `p` has another root than the name of the place that is marked for the root of `p`. If
// none is, `p` is marked itself.
fn is_apart(
    names_rows: &[u32],
    rows: &[u32],
    words: &[u32],
    marks: &mut [u32],
    names: usize,
    p: usize,
    x: usize,
) -> bool
    requires low { p < 512 }
    requires few { names ≤ 64 }
    requires forest { Rows rows.now }
    requires node { IsNode rows.now p }
    requires names_forest { Rows names_rows.now }
    requires nodes { 4 * suc (p * names + names) ≤ length names_rows.now }
    requires row { HasRow words.now p }
    requires room { p < length marks.old }
    requires named { NamesBelow names words.now p }
    requires name { x < names }
    requires here { name_of_form (written_form words.now p) ≡ Some x }
    requires lower { MarkedNames names_rows.now rows.now words.now names p marks.old }
    ensures apart { (result ≡ true) ↔ (q : ℕ) × (q < p) × ApartFrom names_rows.now rows.now words.now names p x q }
    ensures marked { result ≡ false → MarkedNames names_rows.now rows.now words.now names (p + 1) marks.new }
{
    let root = find(rows, p);
    if let Some(first) = marked_for(marks, root) {
        return is_apart_from(names_rows, rows, words, names, p, x, first);
    }
    marks[root] = p as u32 + 1;
    false
}

// Whether the name `x` of the place `p` has the root of nowhere, or of another name of `p`, or another root than the name of
// a lower name place with the root of `p`. Where it is not so, `p` is marked, if no place is for its root.
fn is_spoiled(
    names_rows: &[u32],
    rows: &[u32],
    words: &[u32],
    marks: &mut [u32],
    names: usize,
    p: usize,
    x: usize,
) -> bool
    requires low { p < 512 }
    requires few { names ≤ 64 }
    requires forest { Rows rows.now }
    requires node { IsNode rows.now p }
    requires names_forest { Rows names_rows.now }
    requires nodes { 4 * suc (p * names + names) ≤ length names_rows.now }
    requires row { HasRow words.now p }
    requires room { p < length marks.old }
    requires named { NamesBelow names words.now p }
    requires name { x < names }
    requires here { name_of_form (written_form words.now p) ≡ Some x }
    requires lower { MarkedNames names_rows.now rows.now words.now names p marks.old }
    ensures spoiled { (result ≡ true) ↔ SpoiledRoot names_rows.now rows.now words.now names p x }
    ensures marked { result ≡ false → MarkedNames names_rows.now rows.now words.now names (p + 1) marks.new }
{
    if root_of_name(names_rows, names, p, x) == 0 {
        return true;
    }
    if is_double(names_rows, names, p, x) {
        return true;
    }
    is_apart(names_rows, rows, words, marks, names, p, x)
}

// Whether a place is a name place that is spoiled, as the roots of the two forests tell. Where it is not, it is marked, if it
// is a name place and no place is marked for its root.
fn is_misnamed(
    names_rows: &[u32],
    rows: &[u32],
    words: &[u32],
    marks: &mut [u32],
    names: usize,
    p: usize,
) -> bool
    requires low { p < 512 }
    requires few { names ≤ 64 }
    requires forest { Rows rows.now }
    requires node { IsNode rows.now p }
    requires names_forest { Rows names_rows.now }
    requires nodes { 4 * suc (p * names + names) ≤ length names_rows.now }
    requires row { HasRow words.now p }
    requires room { p < length marks.old }
    requires named { NamesBelow names words.now (suc p) }
    requires lower { MarkedNames names_rows.now rows.now words.now names p marks.old }
    ensures misnamed { (result ≡ true) ↔ MisnamedRoot names_rows.now rows.now words.now names p }
    ensures marked { result ≡ false → MarkedNames names_rows.now rows.now words.now names (p + 1) marks.new }
{
    match name_of(words, p) {
        Some(x) => is_spoiled(names_rows, rows, words, marks, names, p, x),
        None => false,
    }
}

// The lowest name place that is spoiled, as the roots of the two forests tell, if any is, by one pass.
fn search_misnamed(
    names_rows: &[u32],
    rows: &[u32],
    words: &[u32],
    size: usize,
    names: usize,
    marks: &mut [u32],
) -> Option<usize>
    requires few_places { size ≤ 512 }
    requires few { names ≤ 64 }
    requires forest { Rows rows.now }
    requires long { length rows.now ≡ 4 * size }
    requires names_forest { Rows names_rows.now }
    requires names_long { length names_rows.now ≡ 4 * suc (names * size) }
    requires rows { HasRows size words.now }
    requires room { size ≤ length marks.old }
    requires named { NamesBelow names words.now size }
    ensures { LowestBelow size (MisnamedRoot names_rows.now rows.now words.now names) result }
{
    marks.fill(0);
    for p in 0..size {
        if is_misnamed(names_rows, rows, words, marks, names, p) {
            return Some(p);
        }
    }
    None
}

// The lowest name place whose name is nowhere, or joined with another name of the place, or not joined with the name of a
// lower linked name place, if any is, by one pass, which marks places in the lent `marks`.
pub fn find_misnamed(
    names_rows: &[u32],
    rows: &[u32],
    words: &[u32],
    size: usize,
    names: usize,
    marks: &mut [u32],
) -> Option<usize>
    requires few_places { size ≤ 512 }
    requires few { names ≤ 64 }
    requires forest { Rows rows.now }
    requires long { length rows.now ≡ 4 * size }
    requires names_forest { Rows names_rows.now }
    requires names_long { length names_rows.now ≡ 4 * suc (names * size) }
    requires rows { HasRows size words.now }
    requires room { size ≤ length marks.old }
    requires named { (p x : ℕ) → (written size words.now).form p ≡ Form.name x → x < names }
    requires roots { SomeRoots (written size words.now) names rows.now names_rows.now }
    ensures { (told : List Pair) → WellFormed (written size words.now) names told → RootsLink (written size words.now) told rows.now → RootsJoin (written size words.now) names told names_rows.now → FindsMisnamed (written size words.now) names told result }
{
    search_misnamed(names_rows, rows, words, size, names, marks)
}
