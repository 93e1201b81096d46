// The forests over the places and the names of a table, before any tell.
ghost use Rattle.std.specs.Prelude.{◌≡◌, ◌*◌, ◌≤◌, suc, length, []};
ghost use Rattle.recipe.specs.Validity.{Ordered};
ghost use Rattle.nodes.specs.Entering.{Entered};
ghost use Rattle.nodes.specs.NameSteps.{BindersFew};
ghost use Rattle.nodes.specs.Records.{HasRows, written};

use crate::binders::tie_binders;
use crate::names::open_names;
use crate::places::open_places;

// Makes both forests of a table, before any tell. It marks roots in the lent `marks`.
pub fn open_forests(
    rows: &mut [u32],
    names_rows: &mut [u32],
    words: &[u32],
    size: usize,
    names: usize,
    marks: &mut [u32],
)
    requires few_places { size ≤ 512 }
    requires few { names ≤ 64 }
    requires long { length rows.old ≡ 4 * size }
    requires names_long { length names_rows.old ≡ 4 * suc (names * size) }
    requires rows { HasRows size words.now }
    requires ordered { Ordered (written size words.now) }
    requires binders { BindersFew (written size words.now) names }
    requires room { size ≤ length marks.old }
    ensures { Entered (written size words.now) names [] rows.new names_rows.new }
{
    open_places(rows, words, size);
    open_names(names_rows, words, size, names);
    tie_binders(names_rows, rows, words, size, names, marks);
}
