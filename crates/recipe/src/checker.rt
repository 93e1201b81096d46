// The tests of the places of a table, in one pass.
ghost use Rattle.std.specs.Prelude.{◌≡◌, ◌<◌, ◌≤◌, false, ◌||◌, None, nat_le, replicate};
ghost use Rattle.std.specs.List.{list_any};
ghost use Rattle.recipe.specs.Checking.{numbers_fit, outside, held_among};
ghost use Rattle.recipe.specs.Marks.{parts_of, is_marked, marked_depth, marked, fault_seen, refused_by};

use crate::places::{Kind, Place};
use crate::refusals::Refusal;

// Whether the numbers of a record fit its kind, over a list of so many leaves.
fn numbers_fit(place: &Place, leaf_count: usize) -> bool
    ensures { result ≡ numbers_fit leaf_count place.now }
{
    match Kind::try_from(place.kind) {
        Ok(Kind::Nil) => place.a == 0 && place.b == 0,
        Ok(Kind::Leaf) => (place.a as usize) < leaf_count && place.b == 0,
        Ok(Kind::Name) => place.a < 64 && place.b == 0,
        Ok(Kind::Hole) => place.a < 512 && place.b == 0,
        Ok(Kind::Bind) => place.a < 64,
        Ok(Kind::Call) | Err(_) => true,
    }
}

// What the pass over a table keeps: how many places the table has and how many leaves its list, and for each place that
// is held by one of those passed, its depth.
#[derive(Drop)]
pub(crate) struct Checker {
    size: usize,
    leaf_count: usize,
    depths: [Option<u32>; 512],
    ghost few: { size ≤ 512 },
}

impl Checker {
    // Before the first place.
    pub(crate) fn new(size: usize, leaf_count: usize) -> Checker
        requires { size ≤ 512 }
        ensures size { result.size ≡ size }
        ensures leaf_count { result.leaf_count ≡ leaf_count }
        ensures depths { result.depths ≡ replicate 512 None }
    {
        Checker {
            size,
            leaf_count,
            depths: [None; 512],
        }
    }

    // Whether the place `part` is not higher than its holder `p`, or past the end of the table.
    fn is_outside(&self, p: usize, part: u32) -> bool
        ensures { result ≡ (nat_le part p || nat_le self.now.size part) }
    {
        let part = part as usize;
        part <= p || part >= self.size
    }

    // Whether a place passed so far holds `part`.
    fn is_held(&self, part: u32) -> bool
        ensures { result ≡ is_marked self.now.depths part }
    {
        matches!(self.depths.get(part as usize), Some(Some(_)))
    }

    // Whether some part of the place `p` is not a higher place, or past the end.
    fn has_bad_part(&self, p: usize, place: &Place) -> bool
        ensures { result ≡ list_any (outside p self.now.size) (parts_of place.now) }
    {
        place.any_part(|part| self.is_outside(p, part))
    }

    // Whether some part of the place is held already, by a place passed so far or as its other part.
    fn has_held_part(&self, place: &Place) -> bool
        ensures { result ≡ held_among (is_marked self.now.depths) (parts_of place.now) }
    {
        place.any_part(|part| self.is_held(part) || place.has_equal_parts())
    }

    // How many binders stand above the place `p`.
    fn depth(&self, p: usize) -> u32
        requires { p < self.now.size }
        ensures { result ≡ marked_depth self.now.depths p }
    {
        self.depths[p].unwrap_or(0)
    }

    // Refuses the place `p`, the next one, for the first fault that it has.
    pub(crate) fn test(&self, p: usize, place: &Place) -> Result<(), Refusal>
        requires { p < self.now.size }
        ensures { result ≡ refused_by (fault_seen self.now.leaf_count self.now.size self.now.depths p place.now) }
    {
        Kind::try_from(place.kind).map_err(|_| Refusal::UnknownKind { place: p })?;
        if !numbers_fit(place, self.leaf_count) {
            return Err(Refusal::BadNumber { place: p });
        }
        if self.has_bad_part(p, place) {
            return Err(Refusal::BadPart { place: p });
        }
        if self.has_held_part(place) {
            return Err(Refusal::HeldTwice { place: p });
        }
        if self.depth(p) > 64 {
            return Err(Refusal::TooDeep { place: p });
        }
        Ok(())
    }

    // Passes the place `p`: marks its parts as held, with their depth.
    pub(crate) fn mark(&mut self, p: usize, place: &Place)
        requires next { p < self.old.size }
        requires shallow { marked_depth self.old.depths p ≤ 64 }
        requires within { list_any (outside p self.old.size) (parts_of place.now) ≡ false }
        ensures depths { self.new.depths ≡ marked (marked_depth self.old.depths p) (parts_of place.now) self.old.depths }
        ensures size { self.new.size ≡ self.old.size }
        ensures leaf_count { self.new.leaf_count ≡ self.old.leaf_count }
    {
        let depth = self.depth(p);
        match Kind::try_from(place.kind) {
            Ok(Kind::Bind) => self.depths[place.b as usize] = Some(depth + 1),
            Ok(Kind::Call) => {
                self.depths[place.a as usize] = Some(depth);
                self.depths[place.b as usize] = Some(depth);
            }
            _ => {}
        }
    }
}
