// Joining the names of the binders of linked binds.
ghost use Rattle.std.specs.Prelude.{◌≡◌, ◌≤◌, ◌<◌, ◌+◌, ◌*◌, ℕ, suc, List, Some, length};
ghost use Rattle.recipe.specs.Fillings.{Pair};
ghost use Rattle.recipe.specs.Validity.{Ordered};
ghost use Rattle.forest.specs.Rows.{Rows};
ghost use Rattle.nodes.specs.Binders.{TiesBinders};
ghost use Rattle.nodes.specs.BoundNumbers.{BindFew, bound_number};
ghost use Rattle.nodes.specs.NameSteps.{BindersFew, IsExact};
ghost use Rattle.nodes.specs.PlaceClasses.{RootsLink, SomeRootsLink};
ghost use Rattle.nodes.specs.Records.{HasRows, written, written_form};

use crate::names::node_of;
use forest::{find, join};
use recipe::Kind;

// The node of the name of a bind at its part, or none where the place is no bind.
fn bound_node(words: &[u32], names: usize, p: usize) -> Option<usize>
    requires row { 8 * p + 2 < length words.now }
    requires few { names ≤ 64 }
    requires bind { BindFew words.now names p }
    ensures node { result ≡ bound_number names (written_form words.now p) }
    ensures within { (u : ℕ) → result ≡ Some u → u ≤ 32768 }
{
    match Kind::try_from(words[8 * p]) {
        Ok(Kind::Bind) => Some(node_of(
            names,
            words[8 * p + 2] as usize,
            words[8 * p + 1] as usize,
        )),
        _ => None,
    }
}

// Joins the names of the binders of linked binds, each at the part below it, with that of the first bind of their class.
pub fn tie_binders(
    names_rows: &mut [u32],
    rows: &[u32],
    words: &[u32],
    size: usize,
    names: usize,
    marks: &mut [u32],
)
    requires few_places { size ≤ 512 }
    requires few { names ≤ 64 }
    requires forest { Rows rows.now }
    requires long { length rows.now ≡ 4 * size }
    requires names_long { length names_rows.old ≡ 4 * suc (names * size) }
    requires rows { HasRows size words.now }
    requires ordered { Ordered (written size words.now) }
    requires binders { BindersFew (written size words.now) names }
    requires room { size ≤ length marks.old }
    requires exact { IsExact names_rows.old }
    requires roots { SomeRootsLink (written size words.now) rows.now }
    ensures { (told : List Pair) → RootsLink (written size words.now) told rows.now → TiesBinders (written size words.now) names told names_rows.old names_rows.new }
{
    marks.fill(0);
    for p in 0..size {
        if let Some(node) = bound_node(words, names, p) {
            let root = find(rows, p);
            let first = marks[root] as usize;
            if first == 0 {
                marks[root] = node as u32;
            } else {
                join(names_rows, first, node);
            }
        }
    }
}
