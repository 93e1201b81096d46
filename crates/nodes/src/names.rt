// The forest over the names of a table: node 0 is nowhere, and each place has a node for each of `names` names.
ghost use Rattle.std.specs.Prelude.{◌≡◌, ◌≤◌, ◌<◌, ◌+◌, ◌*◌, suc, Some, [], length};
ghost use Rattle.recipe.specs.Validity.{Ordered};
ghost use Rattle.forest.specs.Exact.{Exact};
ghost use Rattle.forest.specs.Rows.{IsNode, node_or_none};
ghost use Rattle.nodes.specs.NameClasses.{name_parts};
ghost use Rattle.nodes.specs.NameRows.{OwnNames, written_name, written_names};
ghost use Rattle.nodes.specs.Starting.{OwnParts};
ghost use Rattle.nodes.specs.NameSteps.{BinderBelow, BindersFew, HeldAlways, IsExact, NamesAlways, PairsMore, binder_of_form, same_names};
ghost use Rattle.nodes.specs.Records.{HasRows, written, written_form};
ghost use Rattle.nodes.specs.Starting.{FewParts, SameBelow};

use crate::places::{first_of_hole, is_hole};
use forest::join;
use recipe::Kind;

// The node of the name `x` at the place `p`.
pub(crate) fn node_of(names: usize, p: usize, x: usize) -> usize
    requires low { p < 512 }
    requires few { names ≤ 64 }
    requires name { x < names }
    ensures node { result ≡ suc (p * names + x) }
    ensures within { result ≤ 32768 }
{
    p * names + x + 1
}

// One more than the node of a name at a part.
fn name_word(names: usize, at: u32, x: usize) -> u32
    requires low { at < 512 }
    requires few { names ≤ 64 }
    requires name { x < names }
    ensures { node_or_none result ≡ Some (suc (at * names + x)) }
{
    node_of(names, at as usize, x) as u32 + 1
}

// For each side one more than the node of a name at the part there, or 0 where there is no part or its binder is of that name.
fn name_words(words: &[u32], names: usize, p: usize, x: usize) -> (u32, u32, u32)
    requires row { 8 * p + 2 < length words.now }
    requires few_parts { FewParts words.now p }
    requires few { names ≤ 64 }
    requires name { x < names }
    ensures left { node_or_none result.0 ≡ written_name words.now names p x 0 }
    ensures right { node_or_none result.1 ≡ written_name words.now names p x 1 }
    ensures inside { node_or_none result.2 ≡ written_name words.now names p x 2 }
{
    match Kind::try_from(words[8 * p]) {
        Ok(Kind::Bind) if words[8 * p + 1] as usize == x => (0, 0, 0),
        Ok(Kind::Bind) => (0, 0, name_word(names, words[8 * p + 2], x)),
        Ok(Kind::Call) => (
            name_word(names, words[8 * p + 1], x),
            name_word(names, words[8 * p + 2], x),
            0,
        ),
        _ => (0, 0, 0),
    }
}

// Makes nowhere a node of its own, with itself at each side.
fn write_nowhere(rows: &mut [u32])
    requires { IsNode rows.old 0 }
    ensures { OwnParts (λ i side. Some 0) rows.new 0 }
{
    rows[0] = 0;
    rows[1] = 1;
    rows[2] = 1;
    rows[3] = 1;
}

// Makes a name at a place a node of its own, with its parts.
fn write_name(rows: &mut [u32], words: &[u32], names: usize, p: usize, x: usize)
    requires node { IsNode rows.old (suc (p * names + x)) }
    requires row { 8 * p + 2 < length words.now }
    requires low { p < 512 }
    requires few_parts { FewParts words.now p }
    requires few { names ≤ 64 }
    requires name { x < names }
    ensures own { OwnParts (written_names words.now names) rows.new (suc (p * names + x)) }
    ensures below { SameBelow (suc (p * names + x)) rows.old rows.new }
{
    let node = node_of(names, p, x);
    let (left, right, inside) = name_words(words, names, p, x);
    rows[4 * node] = node as u32;
    rows[4 * node + 1] = left;
    rows[4 * node + 2] = right;
    rows[4 * node + 3] = inside;
}

// Makes each name at a place a node of its own.
fn write_names(rows: &mut [u32], words: &[u32], names: usize, p: usize)
    requires nodes { 4 * suc (p * names + names) ≤ length rows.old }
    requires row { 8 * p + 2 < length words.now }
    requires low { p < 512 }
    requires few_parts { FewParts words.now p }
    requires few { names ≤ 64 }
    requires own { OwnNames words.now names rows.old (suc (p * names)) }
    ensures { OwnNames words.now names rows.new (suc (p * names + names)) }
{
    for x in 0..names {
        write_name(rows, words, names, p, x);
    }
}

// Makes nowhere and each name at each place a node of its own.
fn init_names(rows: &mut [u32], words: &[u32], size: usize, names: usize)
    requires few_places { size ≤ 512 }
    requires few { names ≤ 64 }
    requires long { length rows.old ≡ 4 * suc (names * size) }
    requires rows { HasRows size words.now }
    requires ordered { Ordered (written size words.now) }
    ensures { Exact (name_parts (written size words.now) names) [] rows.new }
{
    write_nowhere(rows);
    for p in 0..size {
        write_names(rows, words, names, p);
    }
}

// The name of a bind, or none where the place is no bind.
pub(crate) fn binder_of(words: &[u32], p: usize) -> Option<usize>
    requires { 8 * p + 2 < length words.now }
    ensures { result ≡ binder_of_form (written_form words.now p) }
{
    match Kind::try_from(words[8 * p]) {
        Ok(Kind::Bind) => Some(words[8 * p + 1] as usize),
        _ => None,
    }
}

// Joins the name of each bind, at its own place, with nowhere.
fn hide_binders(rows: &mut [u32], words: &[u32], size: usize, names: usize)
    requires few_places { size ≤ 512 }
    requires few { names ≤ 64 }
    requires long { length rows.old ≡ 4 * suc (names * size) }
    requires rows { HasRows size words.now }
    requires binders { BindersFew (written size words.now) names }
    requires exact { Exact (name_parts (written size words.now) names) [] rows.old }
    ensures { NamesAlways (written size words.now) names (BinderBelow (written size words.now) size) rows.new }
{
    for p in 0..size {
        if let Some(x) = binder_of(words, p) {
            join(rows, node_of(names, p, x), 0);
        }
    }
}

// Joins each name at one place with that name at another.
fn join_same_names(rows: &mut [u32], names: usize, p: usize, q: usize)
    requires few { names ≤ 64 }
    requires first { p < 512 }
    requires second { q < 512 }
    requires first_nodes { 4 * suc (p * names + names) ≤ length rows.old }
    requires second_nodes { 4 * suc (q * names + names) ≤ length rows.old }
    requires exact { IsExact rows.old }
    ensures { PairsMore (same_names names p q names) rows.old rows.new }
{
    for x in 0..names {
        let first = node_of(names, p, x);
        let second = node_of(names, q, x);
        join(rows, first, second);
    }
}

// Joins the names at the places of each hole, at each place with those at the lowest.
fn join_hole_names(rows: &mut [u32], words: &[u32], size: usize, names: usize)
    requires few_places { size ≤ 512 }
    requires few { names ≤ 64 }
    requires long { length rows.old ≡ 4 * suc (names * size) }
    requires rows { HasRows size words.now }
    requires binders { NamesAlways (written size words.now) names (BinderBelow (written size words.now) size) rows.old }
    ensures { NamesAlways (written size words.now) names (HeldAlways (written size words.now) names) rows.new }
{
    for p in 0..size {
        let number = words[8 * p + 1];
        if is_hole(words, p, number) {
            let first = first_of_hole(words, number, p);
            join_same_names(rows, names, first, p);
        }
    }
}

// Makes the forest over names before any tell: a node for each name at each place, names of binders joined with nowhere, and names at places of one hole joined.
pub fn open_names(rows: &mut [u32], words: &[u32], size: usize, names: usize)
    requires few_places { size ≤ 512 }
    requires few { names ≤ 64 }
    requires long { length rows.old ≡ 4 * suc (names * size) }
    requires rows { HasRows size words.now }
    requires ordered { Ordered (written size words.now) }
    requires binders { BindersFew (written size words.now) names }
    ensures { NamesAlways (written size words.now) names (HeldAlways (written size words.now) names) rows.new }
{
    init_names(rows, words, size, names);
    hide_binders(rows, words, size, names);
    join_hole_names(rows, words, size, names);
}
