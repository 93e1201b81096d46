// The reader that takes the tokens off the front of a text, one by one.
ghost use Rattle.std.specs.Prelude.{◌≡◌, ◌<◌, ◌≤◌, [], ◌∷◌, length, MatchOption, IfNone, IfSome};
ghost use Rattle.tokens.specs.Tokens.{tokens};
ghost use Rattle.tokens.specs.Pieces.{token_of};

use crate::classes::Class;
use crate::fronts::{front_of, white_size};
use std::marker::Model;

// A token by its class and its place: the offsets of its first byte and of the byte after its last.
#[derive(Clone, Copy, Debug, PartialEq, Eq)]
pub struct Piece {
    pub class: Class,
    pub start: usize,
    pub end: usize,
}

// A text of which the tokens before an offset are read.
#[derive(Drop)]
pub struct Words<'t> {
    text: &'t [u8],
    at: usize,
}

impl<'t> Model for Words<'t> {
    ghost use Rattle.std.specs.Prelude.{◌≤◌, length};
    ghost use Rattle.tokens.specs.Reading.{Reading, reading_at};

    ghost Value = { Reading };

    ghost view = { λ w. reading_at w.at w.text.now };

    ghost invariant = { λ w. w.at ≤ length w.text.now };
}

impl<'t> Words<'t> {
    // The whole text is left.
    pub fn new(text: &'t [u8]) -> Words<'t>
        ensures text { result.text ≡ text.now }
        ensures left { result.left ≡ tokens text.now }
    {
        Words { text, at: 0 }
    }

    // The whole text.
    pub fn text(&self) -> &'t [u8]
        ensures { result.now ≡ self.now.text }
    {
        self.text
    }

    // The first token that is left, and the reader then stands after it.
    pub fn next(&mut self) -> Option<Piece>
        ensures token { MatchOption result (self.old.left ≡ []) (λ piece. self.old.left ≡ token_of self.old.text piece ∷ self.new.left) }
        ensures bounds { IfSome result (λ piece. (piece.start < piece.end) × (piece.end ≤ length self.old.text)) }
        ensures end { IfNone result (self.new.left ≡ []) }
        ensures text { self.new.text ≡ self.old.text }
    {
        let text = self.text;
        let start = self.at + white_size(&text[self.at..]);
        if start == text.len() {
            return None;
        }
        let front = front_of(&text[start..]);
        self.at = start + front.size;
        Some(Piece {
            class: front.class,
            start,
            end: self.at,
        })
    }
}
