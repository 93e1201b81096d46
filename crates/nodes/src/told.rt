// What one told pair of places says of names, joined in the forest over names.
ghost use Rattle.std.specs.Prelude.{◌≡◌, ◌≤◌, ◌<◌, ◌*◌, suc, length};
ghost use Rattle.recipe.specs.Validity.{Ordered};
ghost use Rattle.nodes.specs.HoldersWritten.{HoldersWritten};
ghost use Rattle.nodes.specs.NameSteps.{BindersFew, IsExact};
ghost use Rattle.nodes.specs.Records.{HasRows, written};
ghost use Rattle.nodes.specs.ToldNames.{SaidFirst, SaidMore, SaidSecond, TellsNames};

use crate::names::node_of;
use crate::scopes::equal_name;
use forest::join;

// Joins each name of `p` with the name of `q` that is equal to it, or with nowhere where none is.
fn join_equal(rows: &mut [u32], words: &[u32], size: usize, names: usize, p: usize, q: usize)
    requires few_places { size ≤ 512 }
    requires few { names ≤ 64 }
    requires long { length rows.old ≡ 4 * suc (names * size) }
    requires rows { HasRows size words.now }
    requires ordered { Ordered (written size words.now) }
    requires holders { HoldersWritten size words.now }
    requires binders { BindersFew (written size words.now) names }
    requires first { p < size }
    requires second { q < size }
    requires exact { IsExact rows.old }
    ensures { SaidMore (written size words.now) names p q (SaidFirst (written size words.now) p q names) rows.old rows.new }
{
    for x in 0..names {
        let other = match equal_name(words, size, p, x, q) {
            Some(y) => node_of(names, q, y),
            None => 0,
        };
        join(rows, node_of(names, p, x), other);
    }
}

// Joins each name of `q` to which no name of `p` is equal with nowhere.
fn hide_unmatched(rows: &mut [u32], words: &[u32], size: usize, names: usize, p: usize, q: usize)
    requires few_places { size ≤ 512 }
    requires few { names ≤ 64 }
    requires long { length rows.old ≡ 4 * suc (names * size) }
    requires rows { HasRows size words.now }
    requires ordered { Ordered (written size words.now) }
    requires holders { HoldersWritten size words.now }
    requires first { p < size }
    requires second { q < size }
    requires exact { IsExact rows.old }
    ensures { SaidMore (written size words.now) names p q (SaidSecond (written size words.now) p q names) rows.old rows.new }
{
    for y in 0..names {
        if equal_name(words, size, q, y, p).is_none() {
            join(rows, node_of(names, q, y), 0);
        }
    }
}

// Joins the names of two places that are told to be equal: each name of one with the name of the other that is equal to it, or with nowhere where none is.
pub fn tell_names(rows: &mut [u32], words: &[u32], size: usize, names: usize, p: usize, q: usize)
    requires few_places { size ≤ 512 }
    requires few { names ≤ 64 }
    requires long { length rows.old ≡ 4 * suc (names * size) }
    requires rows { HasRows size words.now }
    requires ordered { Ordered (written size words.now) }
    requires holders { HoldersWritten size words.now }
    requires binders { BindersFew (written size words.now) names }
    requires first { p < size }
    requires second { q < size }
    requires exact { IsExact rows.old }
    ensures { TellsNames (written size words.now) names p q rows.old rows.new }
{
    join_equal(rows, words, size, names, p, q);
    hide_unmatched(rows, words, size, names, p, q);
}
