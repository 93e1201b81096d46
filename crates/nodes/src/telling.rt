// Telling that two places are equal: entering the pair, and what the told pairs come to with it.
ghost use Rattle.std.specs.Prelude.{◌≡◌, ℕ, ◌*◌, ◌<◌, ◌≤◌, suc, length, List, [], ◌∷◌, ◌++◌, Ok, nat_eq};
ghost use Rattle.forest.specs.Rows.{Rows};
ghost use Rattle.recipe.specs.Fillings.{Pair};
ghost use Rattle.recipe.specs.Tables.{Form};
ghost use Rattle.recipe.specs.Tells.{Decided};
ghost use Rattle.recipe.specs.Validity.{Ordered};
ghost use Rattle.closure.specs.Decision.{HolesBelow, WellFormed};
ghost use Rattle.nodes.specs.Entering.{DecidedByPlaces, Entered, EnteredBefore, NamesBehind, PlacesEntered, SomeEntered};
ghost use Rattle.nodes.specs.HoldersWritten.{HoldersWritten};
ghost use Rattle.nodes.specs.NameClasses.{NamesJoined};
ghost use Rattle.nodes.specs.NameSteps.{BindersFew};
ghost use Rattle.nodes.specs.PlaceClasses.{PlacesJoined, RootsLink};
ghost use Rattle.nodes.specs.Records.{HasRows, written};

use crate::binders::tie_binders;
use crate::clash::find_clash;
use crate::cycle::find_cycle;
use crate::misnamed::find_misnamed;
use crate::places::tell_places;
use crate::told::tell_names;
use recipe::Refusal;

// The refusal for places that clash, or for one that comes back to itself, if there is one.
fn decide_places(rows: &[u32], words: &[u32], size: usize, marks: &mut [u32]) -> Result<(), Refusal>
    requires few_places { size ≤ 512 }
    requires forest { Rows rows.now }
    requires long { length rows.now ≡ 4 * size }
    requires rows { HasRows size words.now }
    requires room { size ≤ length marks.old }
    requires joined { PlacesEntered (written size words.now) rows.now }
    ensures { (m : ℕ) (told : List Pair) → PlacesJoined (written size words.now) told rows.now → RootsLink (written size words.now) told rows.now → DecidedByPlaces (written size words.now) m told result }
{
    if let Some((place, partner)) = find_clash(rows, words, size, marks) {
        return Err(Refusal::Clash { place, partner });
    }
    match find_cycle(rows, size, marks) {
        Some(place) => Err(Refusal::Cyclic { place }),
        None => Ok(()),
    }
}

// Joins in the forest over names what a pair says of names, and the binders of the binds that are linked with it.
fn enter_names(
    names_rows: &mut [u32],
    rows: &[u32],
    words: &[u32],
    size: usize,
    names: usize,
    marks: &mut [u32],
    p: usize,
    q: usize,
)
    requires few_places { size ≤ 512 }
    requires few { names ≤ 64 }
    requires forest { Rows rows.now }
    requires long { length rows.now ≡ 4 * size }
    requires names_long { length names_rows.old ≡ 4 * suc (names * size) }
    requires rows { HasRows size words.now }
    requires ordered { Ordered (written size words.now) }
    requires holders { HoldersWritten size words.now }
    requires binders { BindersFew (written size words.now) names }
    requires room { size ≤ length marks.old }
    requires first { p < size }
    requires second { q < size }
    requires behind { NamesBehind (written size words.now) names p q rows.now names_rows.old }
    ensures { (told : List Pair) → RootsLink (written size words.now) (told ++ ((p, q) ∷ [])) rows.now → NamesJoined (written size words.now) names told names_rows.old → NamesJoined (written size words.now) names (told ++ ((p, q) ∷ [])) names_rows.new }
{
    tell_names(names_rows, words, size, names, p, q);
    tie_binders(names_rows, rows, words, size, names, marks);
}

// Enters a pair that is told to be equal, in both forests. It marks roots in the lent `marks`.
pub fn enter_pair(
    rows: &mut [u32],
    names_rows: &mut [u32],
    words: &[u32],
    size: usize,
    names: usize,
    marks: &mut [u32],
    p: usize,
    q: usize,
)
    requires few_places { size ≤ 512 }
    requires few { names ≤ 64 }
    requires long { length rows.old ≡ 4 * size }
    requires names_long { length names_rows.old ≡ 4 * suc (names * size) }
    requires rows { HasRows size words.now }
    requires ordered { Ordered (written size words.now) }
    requires holders { HoldersWritten size words.now }
    requires binders { BindersFew (written size words.now) names }
    requires room { size ≤ length marks.old }
    requires entered { SomeEntered (written size words.now) names rows.old names_rows.old }
    requires first { p < size }
    requires second { q < size }
    ensures { (told : List Pair) → Entered (written size words.now) names told rows.old names_rows.old → Entered (written size words.now) names (told ++ ((p, q) ∷ [])) rows.new names_rows.new }
{
    tell_places(rows, p, q);
    enter_names(names_rows, rows, words, size, names, marks, p, q);
}

// Enters a pair that is told to be equal, and says what the pairs come to with it: accepted where they have a filling, and
// else refused with the first cause and its places. Names are joined only where no places clash and none comes back to
// itself. Where it refuses, the forests are not to be used on.
pub fn tell_pair(
    rows: &mut [u32],
    names_rows: &mut [u32],
    words: &[u32],
    size: usize,
    names: usize,
    marks: &mut [u32],
    p: usize,
    q: usize,
) -> Result<(), Refusal>
    requires few_places { size ≤ 512 }
    requires few { names ≤ 64 }
    requires long { length rows.old ≡ 4 * size }
    requires names_long { length names_rows.old ≡ 4 * suc (names * size) }
    requires rows { HasRows size words.now }
    requires ordered { Ordered (written size words.now) }
    requires holders { HoldersWritten size words.now }
    requires binders { BindersFew (written size words.now) names }
    requires named { (k x : ℕ) → (written size words.now).form k ≡ Form.name x → x < names }
    requires holes { HolesBelow (written size words.now) }
    requires room { size ≤ length marks.old }
    requires entered { EnteredBefore (written size words.now) names p q rows.old names_rows.old }
    requires first { p < size }
    requires second { q < size }
    ensures decided { (told : List Pair) → WellFormed (written size words.now) names (told ++ ((p, q) ∷ [])) → Entered (written size words.now) names told rows.old names_rows.old → Decided nat_eq (written size words.now) (told ++ ((p, q) ∷ [])) result }
    ensures entered { (told : List Pair) → Entered (written size words.now) names told rows.old names_rows.old → result ≡ Ok tt → Entered (written size words.now) names (told ++ ((p, q) ∷ [])) rows.new names_rows.new }
{
    tell_places(rows, p, q);
    decide_places(rows, words, size, marks)?;
    enter_names(names_rows, rows, words, size, names, marks, p, q);
    match find_misnamed(names_rows, rows, words, size, names, marks) {
        Some(place) => Err(Refusal::NamesDisagree { place }),
        None => Ok(()),
    }
}
