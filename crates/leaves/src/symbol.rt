// Symbols: an apostrophe and a short name.
ghost use Rattle.std.specs.Prelude.{◌≡◌, Some};
ghost use Rattle.std.specs.List.{list_all};
ghost use Rattle.leaves.specs.Printing.{symbol_text};
ghost use Rattle.leaves.specs.Symbols.{symbol_of, same_symbol, name_byte, is_tail, is_name, OnlyWord};
ghost use Rattle.std.proofs.Common.{rules};

use recipe::{Leaf, PackedSpelling, pack};
use std::fmt;

/// The bytes of the name after the apostrophe, packed into one number: the first byte highest, zero filled. It prints as it is
/// spelled, as in `'lift`. docs/RULES.md, "Symbols".
#[derive(Clone, Copy, Debug, PartialEq, Eq)]
pub struct Symbol {
    pub packed: u64,
}

// Whether the byte may follow the first one of a name.
fn is_name_byte(byte: u8) -> bool
    ensures { result ≡ name_byte byte }
{
    matches!(byte, b'a'..=b'z' | b'0'..=b'9' | b'-')
}

// Whether every byte may follow the first one of a name.
fn are_name_bytes(bytes: &[u8]) -> bool
    ensures { result ≡ list_all name_byte bytes.now }
{
    bytes.iter().all(|byte| is_name_byte(*byte))
}

// Whether the bytes are the tail of a name: at most seven, each of which may follow its first byte.
fn is_tail(bytes: &[u8]) -> bool
    ensures { result ≡ is_tail bytes.now }
{
    bytes.len() <= 7 && are_name_bytes(bytes)
}

// Whether the bytes are a name: one lower-case letter, and then a tail.
fn is_name(bytes: &[u8]) -> bool
    ensures { result ≡ is_name bytes.now }
{
    match bytes {
        [first, tail @ ..] => first.is_ascii_lowercase() && is_tail(tail),
        [] => false,
    }
}

impl Leaf for Symbol {
    const LONGEST: usize = 9;

    ghost LONGEST = { 9 };

    ghost spells = { symbol_of };

    ghost equates = { same_symbol };

    ghost reflexive = { Prim.search rules };

    ghost symmetric = { Prim.search rules };

    ghost transitive = { Prim.search rules };

    ghost bounded = { Prim.search rules };

    #[tactic(auto, using(crate::proofs::Symbols::symbol_once))]
    fn read(word: &[u8]) -> Option<Symbol>
        ensures value { result ≡ symbol_of word.now }
        ensures once { OnlyWord word.now result }
    {
        match word {
            [b'\'', name @ ..] if is_name(name) => Some(Symbol {
                packed: pack(name)?,
            }),
            _ => None,
        }
    }

    fn same(&self, other: &Symbol) -> bool {
        self == other
    }
}

impl fmt::Display for Symbol {
    ghost output = { λ symbol. Some (symbol_text symbol) };

    fn fmt<W: fmt::Write>(&self, f: &mut fmt::Formatter<W>) -> fmt::Result {
        let name = PackedSpelling(self.packed);
        write!(f, "'{name}")
    }
}
