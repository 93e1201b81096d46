// Whether the recipes at two places are equal in their scopes, whatever was told.
ghost use Rattle.std.specs.Prelude.{◌≡◌, ℕ, ◌<◌, ◌↔◌, nat_eq, true};
ghost use Rattle.recipe.specs.Alike.{Alikes, Finished};
ghost use Rattle.recipe.specs.Fillings.{Filling, Satisfies};
ghost use Rattle.recipe.specs.Tables.{depth, scope};
ghost use Rattle.recipe.specs.Validity.{Ordered};
ghost use Rattle.nodes.specs.HoldersWritten.{HoldersWritten};
ghost use Rattle.nodes.specs.Heights.{FewNames, HasHeights};
ghost use Rattle.nodes.specs.Records.{HasRows, written};

use crate::clash::kind_at;
use crate::heights::{Heights, heights_at};
use crate::lowest_hole::{lower, lowest_hole};
use recipe::{Kind, Refusal};

// Whether two finished places are equal in their scopes, by their parts, side by side. The heights are those of the two places,
// and are so again at the end.
fn equal_places(
    words: &[u32],
    size: usize,
    first: &mut Heights,
    second: &mut Heights,
    p: usize,
    q: usize,
) -> bool
    requires rows { HasRows size words.now }
    requires ordered { Ordered (written size words.now) }
    requires names { FewNames (written size words.now) }
    requires first_place { p < size }
    requires second_place { q < size }
    requires one_depth { depth (written size words.now) p ≡ depth (written size words.now) q }
    requires finished { Finished (written size words.now) p q }
    requires first_heights { HasHeights (scope (written size words.now) p) first.old }
    requires second_heights { HasHeights (scope (written size words.now) q) second.old }
    ensures equal { (θ : Filling ℕ) → (result ≡ true) ↔ Satisfies nat_eq (written size words.now) θ (p, q) }
    ensures first_heights { HasHeights (scope (written size words.now) p) first.new }
    ensures second_heights { HasHeights (scope (written size words.now) q) second.new }
{
    let kind = kind_at(words, p);
    if kind_at(words, q) != kind {
        return false;
    }
    let (a, c) = (words[8 * p + 1] as usize, words[8 * p + 2] as usize);
    let (b, d) = (words[8 * q + 1] as usize, words[8 * q + 2] as usize);
    match kind {
        Kind::Nil | Kind::Hole => true,
        Kind::Leaf => a == b,
        Kind::Name => first.same_name(a, second, b),
        Kind::Bind => {
            let first_before = first.enter(a);
            let second_before = second.enter(b);
            let equal = equal_places(words, size, first, second, c, d);
            first.leave(a, first_before);
            second.leave(b, second_before);
            equal
        }
        Kind::Call => {
            equal_places(words, size, first, second, a, b)
                && equal_places(words, size, first, second, c, d)
        }
    }
}

// Whether the recipes at two places of one depth are equal in their scopes, or why that is refused. It costs two climbs and
// two passes over the places under the two.
pub fn alike(words: &[u32], size: usize, p: usize, q: usize) -> Result<bool, Refusal>
    requires rows { HasRows size words.now }
    requires ordered { Ordered (written size words.now) }
    requires holders { HoldersWritten size words.now }
    requires names { FewNames (written size words.now) }
    ensures { Alikes nat_eq (written size words.now) p q result }
{
    if p >= size {
        return Err(Refusal::NoSuchPlace { place: p });
    }
    if q >= size {
        return Err(Refusal::NoSuchPlace { place: q });
    }
    let mut first = heights_at(words, size, p);
    let mut second = heights_at(words, size, q);
    if first.depth() != second.depth() {
        return Err(Refusal::UnequalDepths {
            first: p,
            second: q,
        });
    }
    if let Some(place) = lower(lowest_hole(words, size, p), lowest_hole(words, size, q)) {
        return Err(Refusal::HoleInside { place });
    }
    Ok(equal_places(words, size, &mut first, &mut second, p, q))
}
