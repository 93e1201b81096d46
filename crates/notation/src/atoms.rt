// Recipes of one piece: nil, leaves, names and holes.
ghost use Rattle.std.specs.Prelude.{◌≡◌, ◌≢◌, ℕ, ◌≤◌, List, length};
ghost use Rattle.recipe.specs.Kinds.{code_of};
ghost use Rattle.tokens.specs.Tokens.{Token};
ghost use Rattle.notation.specs.LentLists.{Sound, Stays};
ghost use Rattle.notation.specs.Tables.{row};
ghost use Rattle.notation.specs.Taking.{TakesRecipe};

use crate::lent_lists::LentLists;
use crate::pieces::wrong;
use recipe::{Kind, Place, Refusal};
use tokens::{Class, Piece};

// The record of a place.
pub(crate) fn record_of(kind: Kind, a: u32, b: u32) -> Place
    ensures { result ≡ row (code_of kind) a b }
{
    let kind = kind as u32;
    Place { kind, a, b }
}

// The place of a leaf.
fn leaf(first: Piece, text: &[u8], lists: &mut LentLists) -> Result<u32, Refusal>
    requires class { first.class ≡ Class.Leaf }
    requires sound { Sound lists.old }
    ensures stays { Stays lists.old lists.new }
    ensures taken { (d : ℕ) (s : List Token) → TakesRecipe text.now d first s s lists.old lists.new result }
{
    let number = lists.leaf(first.start)?;
    lists.add(first.start, record_of(Kind::Leaf, number, 0))
}

// The place of a name.
fn name(first: Piece, text: &[u8], lists: &mut LentLists) -> Result<u32, Refusal>
    requires class { first.class ≡ Class.Name }
    requires some { first.start ≤ first.end }
    requires inside { first.end ≤ length text.now }
    requires sound { Sound lists.old }
    ensures stays { Stays lists.old lists.new }
    ensures taken { (d : ℕ) (s : List Token) → TakesRecipe text.now d first s s lists.old lists.new result }
{
    let number = lists.name(first.start, &text[first.start..first.end])?;
    lists.add(first.start, record_of(Kind::Name, number, 0))
}

// The place of a hole.
fn hole(first: Piece, text: &[u8], lists: &mut LentLists) -> Result<u32, Refusal>
    requires class { first.class ≡ Class.Hole }
    requires some { first.start ≤ first.end }
    requires inside { first.end ≤ length text.now }
    requires sound { Sound lists.old }
    ensures stays { Stays lists.old lists.new }
    ensures taken { (d : ℕ) (s : List Token) → TakesRecipe text.now d first s s lists.old lists.new result }
{
    let number = lists.hole(first.start, &text[first.start..first.end])?;
    lists.add(first.start, record_of(Kind::Hole, number, 0))
}

// The place of a recipe of one piece, which is no opening parenthesis.
pub(crate) fn atom(first: Piece, text: &[u8], lists: &mut LentLists) -> Result<u32, Refusal>
    requires class { first.class ≢ Class.Open }
    requires some { first.start ≤ first.end }
    requires inside { first.end ≤ length text.now }
    requires sound { Sound lists.old }
    ensures stays { Stays lists.old lists.new }
    ensures taken { (d : ℕ) (s : List Token) → TakesRecipe text.now d first s s lists.old lists.new result }
{
    match first.class {
        Class::Nil => lists.add(first.start, record_of(Kind::Nil, 0, 0)),
        Class::Leaf => leaf(first, text, lists),
        Class::Name => name(first, text, lists),
        Class::Hole => hole(first, text, lists),
        _ => Err(wrong(first)),
    }
}
