// What is said of a spot of a recipe.
ghost use Rattle.std.specs.Prelude.{Some};
ghost use Rattle.recipe.specs.Printing.{finding_text, label_text};

use std::fmt;

// The form at a spot, with the number that its label carries.
#[derive(Clone, Copy, Debug, PartialEq, Eq)]
pub enum Label {
    Nil,
    // a leaf, with its number in the list of leaves if it is listed
    Leaf(Option<usize>),
    // a name that no bind passed on the way holds, with its number
    Name(usize),
    // a name that a bind passed on the way holds, with the level of that bind
    Local(usize),
    Bind,
    Call,
}

// What a look finds: the label that all fillings agree on, no spot under any filling, or neither.
#[derive(Clone, Copy, Debug, PartialEq, Eq)]
pub enum Finding {
    Label(Label),
    Absent,
    Open,
}

// A word, and the number if there is one, as in `leaf 3`.
impl fmt::Display for Label {
    ghost output = { λ label. Some (label_text label) };

    fn fmt<W: fmt::Write>(&self, f: &mut fmt::Formatter<W>) -> fmt::Result {
        match self {
            Label::Nil => f.write_str("nil"),
            Label::Leaf(None) => f.write_str("leaf"),
            Label::Leaf(Some(number)) => write!(f, "leaf {number}"),
            Label::Name(number) => write!(f, "name {number}"),
            Label::Local(level) => write!(f, "local {level}"),
            Label::Bind => f.write_str("bind"),
            Label::Call => f.write_str("call"),
        }
    }
}

// The label, absent or open.
impl fmt::Display for Finding {
    ghost output = { λ finding. Some (finding_text finding) };

    fn fmt<W: fmt::Write>(&self, f: &mut fmt::Formatter<W>) -> fmt::Result {
        match self {
            Finding::Label(label) => write!(f, "{label}"),
            Finding::Absent => f.write_str("absent"),
            Finding::Open => f.write_str("open"),
        }
    }
}
