// What a token is.

// The classes of tokens: parentheses, nil, and the words by their first byte and what follows it.
#[derive(Clone, Copy, Debug, PartialEq, Eq)]
pub enum Class {
    Open,
    Close,
    Nil,
    Lambda,
    Name,
    Hole,
    Leaf,
    // a word of no class, or a lone apostrophe directly before `(` that is no nil
    Unknown,
}
