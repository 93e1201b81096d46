// What the class of a place has.
ghost use Rattle.std.specs.Prelude.{◌≡◌, ◌*◌, ◌<◌, ◌≤◌, length};
ghost use Rattle.forest.specs.Rows.{Rows};
ghost use Rattle.nodes.specs.NonHoles.{FindsNonHole, NonHoleMate};
ghost use Rattle.nodes.specs.Searches.{LowestBelow};
ghost use Rattle.nodes.specs.PlaceClasses.{PlacesJoined, RootsLink, SomePlacesJoined};
ghost use Rattle.nodes.specs.Records.{HasRows, written};

use crate::clash::kind_at;
use forest::find;
use recipe::Kind;

// The lowest place that has the root of `p` and is no hole, if any is.
fn non_hole_mate(rows: &[u32], words: &[u32], size: usize, p: usize) -> Option<usize>
    requires forest { Rows rows.now }
    requires long { length rows.now ≡ 4 * size }
    requires rows { HasRows size words.now }
    requires place { p < size }
    ensures { LowestBelow size (NonHoleMate rows.now words.now p) result }
{
    let root = find(rows, p);
    for q in 0..size {
        if kind_at(words, q) != Kind::Hole && find(rows, q) == root {
            return Some(q);
        }
    }
    None
}

// The lowest place that is linked with `p` and is no hole, or none where only holes are, so that the class is open. Writes
// nothing.
pub fn non_hole(rows: &[u32], words: &[u32], size: usize, p: usize) -> Option<usize>
    requires forest { Rows rows.now }
    requires long { length rows.now ≡ 4 * size }
    requires rows { HasRows size words.now }
    requires place { p < size }
    requires joined { SomePlacesJoined (written size words.now) rows.now }
    ensures { (told : _) → PlacesJoined (written size words.now) told rows.now → RootsLink (written size words.now) told rows.now → FindsNonHole (written size words.now) told p result }
{
    non_hole_mate(rows, words, size, p)
}
