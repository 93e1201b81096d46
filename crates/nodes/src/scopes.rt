// The holders of places, and which name of one place is equal to a name of another.
ghost use Rattle.std.specs.Prelude.{◌≡◌, ℕ, ◌+◌, ◌*◌, ◌<◌, ◌≤◌, length, None, MatchOption};
ghost use Rattle.std.specs.List.{slice_get};
ghost use Rattle.recipe.specs.Scopes.{NameEqual, inner};
ghost use Rattle.recipe.specs.Tables.{depth, parts, scope};
ghost use Rattle.recipe.specs.Validity.{Ordered};
ghost use Rattle.nodes.specs.HoldersWritten.{HolderSet, HolderWord, HoldersWritten, PartsHeld, PartsInside, SameForms, written_holder};
ghost use Rattle.nodes.specs.Opposed.{HasRow};
ghost use Rattle.nodes.specs.Records.{ChangesOnly, HasRows, written, written_form};

use crate::clash::kind_at;
use crate::names::binder_of;
use recipe::Kind;

// The place that holds `p`, or none.
pub(crate) fn holder_of(words: &[u32], p: usize) -> Option<usize>
    requires { HasRow words.now p }
    ensures { result ≡ written_holder words.now p }
{
    (words[8 * p + 3] as usize).checked_sub(1)
}

// Writes for each place that nothing holds it.
fn clear_holders(words: &mut [u32], size: usize)
    requires { HasRows size words.old }
    ensures none { (p : ℕ) → p < size → written_holder words.new p ≡ None }
    ensures forms { SameForms words.old words.new }
    ensures only { ChangesOnly (HolderWord size) words.old words.new }
{
    for p in 0..size {
        words[8 * p + 3] = 0;
    }
}

// Writes that `p` holds a place.
fn set_holder(words: &mut [u32], place: usize, p: usize)
    requires row { HasRow words.old place }
    requires few { p < 512 }
    ensures { HolderSet p place words.old words.new }
{
    words[8 * place + 3] = p as u32 + 1;
}

// Writes for each part of `p` that `p` holds it.
fn hold_parts(words: &mut [u32], p: usize)
    requires row { HasRow words.old p }
    requires few { p < 512 }
    requires inside { PartsInside words.old p }
    ensures { PartsHeld p (parts (written_form words.old p)) words.old words.new }
{
    let first = words[8 * p + 1] as usize;
    let second = words[8 * p + 2] as usize;
    match kind_at(words, p) {
        Kind::Bind => set_holder(words, second, p),
        Kind::Call => {
            set_holder(words, first, p);
            set_holder(words, second, p);
        }
        _ => {}
    }
}

// Writes for each place which place holds it, and no other word. The table that the words write is as before.
pub fn write_holders(words: &mut [u32], size: usize)
    requires few { size ≤ 512 }
    requires rows { HasRows size words.old }
    requires ordered { Ordered (written size words.old) }
    ensures holders { HoldersWritten size words.new }
    ensures forms { SameForms words.old words.new }
    ensures same { written size words.new ≡ written size words.old }
    ensures only { ChangesOnly (HolderWord size) words.old words.new }
    ensures long { length words.new ≡ length words.old }
{
    clear_holders(words, size);
    for p in 0..size {
        hold_parts(words, p);
    }
}

// The inner number of a name in the scope of `p`, or none where the name is free, by a climb from holder to holder.
fn inner_number(words: &[u32], size: usize, p: usize, name: usize) -> Option<usize>
    requires rows { HasRows size words.now }
    requires ordered { Ordered (written size words.now) }
    requires holders { HoldersWritten size words.now }
    requires place { p < size }
    ensures { result ≡ inner (scope (written size words.now) p) name }
{
    let mut below = p;
    let mut passed = 0;
    while let Some(holder) = holder_of(words, below) {
        if let Some(bound) = binder_of(words, holder) {
            if bound == name {
                return Some(passed);
            }
            passed += 1;
        }
        below = holder;
    }
    None
}

// The name at a position of the scope of `p`, innermost first, or none past its end, by the same climb.
fn binder_at(words: &[u32], size: usize, p: usize, position: usize) -> Option<usize>
    requires rows { HasRows size words.now }
    requires ordered { Ordered (written size words.now) }
    requires holders { HoldersWritten size words.now }
    requires place { p < size }
    ensures { result ≡ slice_get (scope (written size words.now) p) position }
{
    let mut below = p;
    let mut left = position;
    while let Some(holder) = holder_of(words, below) {
        if let Some(bound) = binder_of(words, holder) {
            if left == 0 {
                return Some(bound);
            }
            left -= 1;
        }
        below = holder;
    }
    None
}

// How many binders stand above `p`, by the same climb.
pub fn depth_of(words: &[u32], size: usize, p: usize) -> usize
    requires rows { HasRows size words.now }
    requires ordered { Ordered (written size words.now) }
    requires holders { HoldersWritten size words.now }
    requires place { p < size }
    ensures { result ≡ depth (written size words.now) p }
{
    let mut below = p;
    let mut count = 0;
    while let Some(holder) = holder_of(words, below) {
        if binder_of(words, holder).is_some() {
            count += 1;
        }
        below = holder;
    }
    count
}

// The name of `q` that is equal to a name of `p`, each in its scope, if there is one.
pub fn equal_name(words: &[u32], size: usize, p: usize, name: usize, q: usize) -> Option<usize>
    requires rows { HasRows size words.now }
    requires ordered { Ordered (written size words.now) }
    requires holders { HoldersWritten size words.now }
    requires first { p < size }
    requires second { q < size }
    ensures { MatchOption result ((y : ℕ) → NameEqual (scope (written size words.now) p) name (scope (written size words.now) q) y → ⊥) (λ y. NameEqual (scope (written size words.now) p) name (scope (written size words.now) q) y) }
{
    let number = inner_number(words, size, p, name);
    let candidate = match number {
        Some(position) => binder_at(words, size, q, position)?,
        None => name,
    };
    if inner_number(words, size, q, candidate) == number {
        Some(candidate)
    } else {
        None
    }
}
