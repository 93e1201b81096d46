// The height of each name in a scope, so that names of two scopes are compared without a climb.
ghost use Rattle.std.specs.Prelude.{◌≡◌, ◌<◌, ◌↔◌, [], ◌∷◌, length, true};
ghost use Rattle.recipe.specs.Scopes.{NameEqual, Scope};
ghost use Rattle.recipe.specs.Tables.{scope};
ghost use Rattle.recipe.specs.Validity.{Ordered};
ghost use Rattle.nodes.specs.HoldersWritten.{HoldersWritten};
ghost use Rattle.nodes.specs.Heights.{FewNames, HasHeights, height};
ghost use Rattle.nodes.specs.Records.{HasRows, written};

use crate::names::binder_of;
use crate::scopes::holder_of;

// For each name below 64 the height of its innermost binder, counted from 1 at the outermost binder, or 0 where the name is
// free; and the number of binders.
#[derive(Drop)]
pub(crate) struct Heights {
    of: [u8; 64],
    depth: u8,
}

impl Heights {
    // The heights in the scope without binders.
    fn free() -> Heights
        ensures { HasHeights [] result }
    {
        Heights {
            of: [0; 64],
            depth: 0,
        }
    }

    // The number of binders.
    pub(crate) fn depth(&self) -> u8
        ensures { result ≡ self.now.depth }
    {
        self.depth
    }

    // Goes below a binder, and gives the height that its name had above it.
    pub(crate) fn enter(&mut self, name: usize) -> u8
        requires name { name < 64 }
        requires shallow { self.old.depth < 64 }
        ensures heights { (Φ : Scope) → HasHeights Φ self.old → HasHeights (name ∷ Φ) self.new }
        ensures before { (Φ : Scope) → HasHeights Φ self.old → result ≡ height Φ name }
    {
        let before = self.of[name];
        self.depth += 1;
        self.of[name] = self.depth;
        before
    }

    // Goes back above a binder, whose name had the height `before` there.
    pub(crate) fn leave(&mut self, name: usize, before: u8)
        requires name { name < 64 }
        requires deep { 0 < self.old.depth }
        ensures { (Φ : Scope) → HasHeights (name ∷ Φ) self.old → before ≡ height Φ name → HasHeights Φ self.new }
    {
        self.depth -= 1;
        self.of[name] = before;
    }

    // Whether a name and a name of another scope with as many binders are equal, each in its scope: they have one height, and
    // are one name if that is 0.
    pub(crate) fn same_name(&self, x: usize, other: &Heights, y: usize) -> bool
        requires first { x < 64 }
        requires second { y < 64 }
        ensures { (Φ Ψ : Scope) → HasHeights Φ self.now → HasHeights Ψ other.now → length Φ ≡ length Ψ → (result ≡ true) ↔ NameEqual Φ x Ψ y }
    {
        let here = self.of[x];
        here == other.of[y] && (here != 0 || x == y)
    }
}

// The heights in the scope of `p`, by one climb from holder to holder.
pub(crate) fn heights_at(words: &[u32], size: usize, p: usize) -> Heights
    requires rows { HasRows size words.now }
    requires ordered { Ordered (written size words.now) }
    requires holders { HoldersWritten size words.now }
    requires names { FewNames (written size words.now) }
    requires place { p < size }
    ensures { HasHeights (scope (written size words.now) p) result }
{
    let Some(holder) = holder_of(words, p) else {
        return Heights::free();
    };
    let mut heights = heights_at(words, size, holder);
    if let Some(bound) = binder_of(words, holder) {
        heights.enter(bound);
    }
    heights
}
