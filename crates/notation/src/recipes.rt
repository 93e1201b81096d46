// Recipes taken off the front of a text.
ghost use Rattle.std.specs.Prelude.{◌≡◌, ℕ, ◌<◌, ◌≤◌, IfOk, length};
ghost use Rattle.notation.specs.LentLists.{Sound, Stays, Stands};
ghost use Rattle.notation.specs.Fitting.{Room};
ghost use Rattle.notation.specs.Machine.{Used};
ghost use Rattle.notation.specs.Taking.{AllShort, TakesRecipe, TookBinderOrNone};

use crate::atoms::{atom, record_of};
use crate::lent_lists::LentLists;
use crate::pieces::{expect, next_piece};
use recipe::{Kind, Refusal};
use tokens::{Class, Piece, Words};

// How deep lists may nest.
const DEEPEST: usize = 128;

// The number of the name in a binder list, `(` and a name and `)`.
fn binder(words: &mut Words, lists: &mut LentLists) -> Result<u32, Refusal>
    requires sound { Sound lists.old }
    ensures text { words.new.text ≡ words.old.text }
    ensures fewer { IfOk result (λ n. length words.new.left < length words.old.left) }
    ensures stays { Stays lists.old lists.new }
    ensures taken { (most : Room) (used : Used) (d : ℕ) → d ≤ 128 → Stands most used lists.old → AllShort words.old.left → TookBinderOrNone most (length words.old.text) d used words.old.left words.new.left lists.old.places.now lists.new result }
{
    expect(Class::Open, words)?;
    let name = expect(Class::Name, words)?;
    let number = lists.name(name.start, &words.text()[name.start..name.end])?;
    expect(Class::Close, words)?;
    Ok(number)
}

// The place of a list, of which the parenthesis is taken: a bind where it begins with lambda, else a call. The place is taken first, and its record written last.
#[cycle(recipes)]
fn list(
    opening: Piece,
    words: &mut Words,
    lists: &mut LentLists,
    depth: usize,
) -> Result<u32, Refusal>
    requires class { opening.class ≡ Class.Open }
    requires deep { depth ≤ 128 }
    requires sound { Sound lists.old }
    ensures text { words.new.text ≡ words.old.text }
    ensures fewer { IfOk result (λ n. length words.new.left ≤ length words.old.left) }
    ensures stays { Stays lists.old lists.new }
    ensures taken { TakesRecipe words.old.text depth opening words.old.left words.new.left lists.old lists.new result }
{
    if depth == DEEPEST {
        return Err(Refusal::NoRoom {
            offset: opening.start,
        });
    }
    let place = lists.take_place(opening.start)?;
    let head = next_piece(words)?;
    if head.class == Class::Lambda {
        let name = binder(words, lists)?;
        let body = next_piece(words)?;
        let inside = recipe(body, words, lists, depth + 1)?;
        expect(Class::Close, words)?;
        lists.write(place, record_of(Kind::Bind, name, inside));
        return Ok(place);
    }
    let left = recipe(head, words, lists, depth + 1)?;
    let second = next_piece(words)?;
    let right = recipe(second, words, lists, depth + 1)?;
    expect(Class::Close, words)?;
    lists.write(place, record_of(Kind::Call, left, right));
    Ok(place)
}

// The place of the recipe that begins with this piece, which is taken.
#[cycle(recipes)]
pub(crate) fn recipe(
    first: Piece,
    words: &mut Words,
    lists: &mut LentLists,
    depth: usize,
) -> Result<u32, Refusal>
    requires some { first.start ≤ first.end }
    requires inside { first.end ≤ length words.old.text }
    requires deep { depth ≤ 128 }
    requires sound { Sound lists.old }
    ensures text { words.new.text ≡ words.old.text }
    ensures fewer { IfOk result (λ n. length words.new.left ≤ length words.old.left) }
    ensures stays { Stays lists.old lists.new }
    ensures taken { TakesRecipe words.old.text depth first words.old.left words.new.left lists.old lists.new result }
{
    if first.class == Class::Open {
        list(first, words, lists, depth)
    } else {
        atom(first, words.text(), lists)
    }
}
