// The roots of a table: the places that no place holds.
ghost use Rattle.std.specs.Prelude.{◌≡◌, ◌≤◌, length};
ghost use Rattle.listing.specs.Roots.{RootsBelow, held_in};

use arrayvec::ArrayVec;
use recipe::Place;

// The most places that a listing has.
pub(crate) const PLACES: usize = 64;

// Whether some place holds the place `p`.
fn is_held(places: &[Place], p: usize) -> bool
    ensures { result ≡ held_in places.now p }
{
    places.iter().any(|place| place.has_part(p))
}

// The roots, in order.
pub(crate) fn roots(places: &[Place]) -> ArrayVec<usize, PLACES>
    requires { length places.now ≤ 64 }
    ensures { RootsBelow places.now (length places.now) result.items }
{
    let mut roots = ArrayVec::new();
    for p in 0..places.len() {
        if !is_held(places, p) {
            roots.push(p);
        }
    }
    roots
}
