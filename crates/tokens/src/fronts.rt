// The token that a text begins with: its class and its size.
ghost use Rattle.std.specs.Prelude.{◌≡◌, ◌≤◌, length, MatchOption, []};
ghost use Rattle.std.specs.List.{list_all, prefix_len};
ghost use Rattle.tokens.specs.Words.{is_white, in_word, name_byte, is_tail, is_lambda, class_of_word, word_size};
ghost use Rattle.tokens.specs.Tokens.{front_class, front_size};

use crate::classes::Class;

// Whether the byte is white space: a space, a tab, a line feed or a carriage return.
fn is_white(byte: u8) -> bool
    ensures { result ≡ is_white byte }
{
    matches!(byte, b' ' | b'\t' | b'\n' | b'\r')
}

// Whether the byte belongs to a word: it is no white space and no parenthesis.
fn in_word(byte: u8) -> bool
    ensures { result ≡ in_word byte }
{
    !is_white(byte) && !matches!(byte, b'(' | b')')
}

// How many bytes of white space the text begins with.
#[tactic(auto, using(crate::proofs::FrontSizes::white_size_within))]
pub(crate) fn white_size(text: &[u8]) -> usize
    ensures size { result ≡ prefix_len is_white text.now }
    ensures within { result ≤ length text.now }
{
    text.iter().take_while(|byte| is_white(**byte)).count()
}

// How many bytes the word has that the text begins with.
fn word_size(text: &[u8]) -> usize
    ensures { result ≡ word_size text.now }
{
    text.iter().take_while(|byte| in_word(**byte)).count()
}

// Whether the byte may follow the first one of a name or a hole.
fn is_name_byte(byte: u8) -> bool
    ensures { result ≡ name_byte byte }
{
    byte.is_ascii_alphanumeric() || byte == b'-'
}

// Whether every byte may follow the first one of a name or a hole.
fn are_name_bytes(bytes: &[u8]) -> bool
    ensures { result ≡ list_all name_byte bytes.now }
{
    bytes.iter().all(|byte| is_name_byte(*byte))
}

// Whether the bytes may follow the first one of a name or a hole: at most seven, each of which may.
fn is_tail(bytes: &[u8]) -> bool
    ensures { result ≡ is_tail bytes.now }
{
    bytes.len() <= 7 && are_name_bytes(bytes)
}

// Whether the word is lambda.
fn is_lambda(word: &[u8]) -> bool
    ensures { result ≡ is_lambda word.now }
{
    word == b"lambda".as_slice()
}

// The class of a word that is not a lone apostrophe directly before `(`.
#[tactic(auto, unfolding(crate::specs::Words::class_of_word))]
fn class_of_word(word: &[u8]) -> Class
    ensures { result ≡ class_of_word word.now }
{
    match word {
        [b'\'' | b'0'..=b'9', ..] => Class::Leaf,
        _ if is_lambda(word) => Class::Lambda,
        [b'a'..=b'z', tail @ ..] if is_tail(tail) => Class::Name,
        [b'A'..=b'Z', tail @ ..] if is_tail(tail) => Class::Hole,
        _ => Class::Unknown,
    }
}

// The class and the size in bytes of the token that a text begins with.
#[derive(Clone, Copy)]
pub(crate) struct Front {
    pub(crate) class: Class,
    pub(crate) size: usize,
}

// The token that a text begins with, as it is where the first byte is no white space.
#[tactic(auto, using(crate::proofs::FrontSizes::front_size_within))]
pub(crate) fn front_of(text: &[u8]) -> Front
    ensures class { result.class ≡ front_class text.now }
    ensures size { result.size ≡ front_size text.now }
    ensures within { result.size ≤ length text.now }
{
    if text.starts_with(b"(") {
        Front {
            class: Class::Open,
            size: 1,
        }
    } else if text.starts_with(b")") {
        Front {
            class: Class::Close,
            size: 1,
        }
    } else if text.starts_with(b"'()") {
        Front {
            class: Class::Nil,
            size: 3,
        }
    } else if text.starts_with(b"'(") {
        Front {
            class: Class::Unknown,
            size: word_size(text),
        }
    } else {
        let size = word_size(text);
        Front {
            class: class_of_word(&text[..size]),
            size,
        }
    }
}
