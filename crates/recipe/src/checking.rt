// Whether a table of places can be opened, and the memory that it then needs.
ghost use Rattle.std.specs.Prelude.{◌≡◌, ◌^◌, ◌≤◌, ◌||◌, true, ◌↔◌, length, is_ok, nat_lt};
ghost use Rattle.recipe.specs.Checking.{fault_at, above_name, name_count, needed, checked};
ghost use Rattle.recipe.specs.Common.{first_below};
ghost use Rattle.recipe.specs.Marks.{refused_by};
ghost use Rattle.recipe.specs.Validity.{Valid};

use crate::checker::Checker;
use crate::places::{Kind, Place};
use crate::refusals::Refusal;

// One more than the number of the name of a name or a bind, and 0 for any other record.
fn above_name(place: &Place) -> usize
    ensures value { result ≡ above_name place.now }
    ensures bound { result ≤ 2 ^ 32 }
{
    if place.kind == Kind::Name as u32 || place.kind == Kind::Bind as u32 {
        place.a as usize + 1
    } else {
        0
    }
}

// One more than the highest number of a name, or 0 where there is none.
pub fn name_count(places: &[Place]) -> usize
    ensures value { result ≡ name_count places.now }
    ensures bound { result ≤ 2 ^ 32 }
{
    places.iter().map(above_name).max().unwrap_or(0)
}

// Whether a table has too many places, or too many leaves.
fn is_too_large(places: usize, leaves: usize) -> bool
    ensures { result ≡ (nat_lt 512 places || nat_lt 512 leaves) }
{
    places > 512 || leaves > 512
}

// The memory that a table needs, in words of 32 bits.
fn needed_memory(places: &[Place]) -> usize
    requires { length places.now ≤ 512 }
    ensures { result ≡ needed places.now }
{
    places.len() * (8 * name_count(places) + 64) + 1024
}

// Refuses a table for the first fault of its lowest place that has one.
fn test_places<L>(places: &[Place], leaves: &[L]) -> Result<(), Refusal>
    requires { length places.now ≤ 512 }
    ensures { result ≡ refused_by (first_below (fault_at places.now leaves.now) (length places.now)) }
{
    let mut checker = Checker::new(places.len(), leaves.len());
    for (p, place) in places.iter().enumerate() {
        checker.test(p, place)?;
        checker.mark(p, place);
    }
    Ok(())
}

// The memory that the table needs, in words of 32 bits, or why it cannot be opened.
pub fn check<L>(places: &[Place], leaves: &[L]) -> Result<usize, Refusal>
    ensures value { result ≡ checked places.now leaves.now }
    ensures valid { (is_ok result ≡ true) ↔ Valid places.now leaves.now }
{
    if is_too_large(places.len(), leaves.len()) {
        return Err(Refusal::TooLarge);
    }
    test_places(places, leaves)?;
    Ok(needed_memory(places))
}
