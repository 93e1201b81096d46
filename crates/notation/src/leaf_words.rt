// The leaf words of a text: first all of them are read, and only then are leaves written.
ghost use Rattle.std.specs.Prelude.{◌≡◌, ◌<◌, ◌≤◌, ◌++◌, List, IfSome, length, drop};
ghost use Rattle.tokens.specs.Tokens.{tokens};
ghost use Rattle.notation.specs.Fitting.{leaf_words};
ghost use Rattle.notation.specs.Reading.{ReadAs};
ghost use Rattle.notation.specs.Sweeping.{AllReadOrUnread, NextLeafOrNone};

use recipe::Leaf;
use tokens::{Class, Piece, Words};

// The next leaf word, and the reader then stands after it.
fn next_leaf_word(words: &mut Words) -> Option<Piece>
    ensures text { words.new.text ≡ words.old.text }
    ensures fewer { IfSome result (λ piece. length words.new.left < length words.old.left) }
    ensures next { NextLeafOrNone words.old.text words.old.left words.new.left result }
{
    while let Some(piece) = words.next() {
        if piece.class == Class::Leaf {
            return Some(piece);
        }
    }
    None
}

// The offset of the first leaf word that the kind does not read.
pub(crate) fn first_unread<L: Leaf>(text: &[u8]) -> Option<usize>
    ensures { AllReadOrUnread L.spells (tokens text.now) result }
{
    let mut words = Words::new(text);
    while let Some(piece) = next_leaf_word(&mut words) {
        match L::read(&text[piece.start..piece.end]) {
            Some(_) => {}
            None => return Some(piece.start),
        }
    }
    None
}

// Writes the leaves that the leaf words spell, from the front of the list on.
pub(crate) fn write_leaves<L: Leaf>(text: &[u8], leaves: &mut [L])
    ensures { (ls : List L) → ReadAs L.spells (leaf_words (tokens text.now)) ls → length ls ≤ length leaves.old → leaves.new ≡ ls ++ drop (length ls) leaves.old }
{
    let mut words = Words::new(text);
    for leaf in leaves.iter_mut() {
        let Some(piece) = next_leaf_word(&mut words) else {
            return;
        };
        match L::read(&text[piece.start..piece.end]) {
            Some(read) => *leaf = read,
            None => return,
        }
    }
}
