// Why a call of the library refuses, with what the refusal carries.
ghost use Rattle.std.specs.Prelude.{◌≡◌, Some};
ghost use Rattle.recipe.specs.Refusals.{carried_by, number_of_refusal, refusal_text};

use std::error::Error;
use std::fmt;

// One case for each number; the numbers are those of `number`.
#[derive(Clone, Copy, Debug, PartialEq, Eq)]
pub enum Refusal {
    // the table has more than 512 places, or the list more than 512 leaves
    TooLarge,
    // the kind is above 5
    UnknownKind { place: usize },
    // a leaf that is not in the list, a name or a hole that is too high, or a number that is not used and not 0
    BadNumber { place: usize },
    // a part that is its holder or lower, or past the end
    BadPart { place: usize },
    // a part that a lower place has too, or that is both parts of its holder
    HeldTwice { place: usize },
    // more than 64 binds above the place
    TooDeep { place: usize },
    // fewer words than `check` asks for
    MemoryTooShort,
    // the place is past the end
    NoSuchPlace { place: usize },
    // the two places have unequal depths
    UnequalDepths { first: usize, second: usize },
    // 512 tells are accepted already
    TooManyTells,
    // two linked places, neither a hole, differ in kind, or are leaves that are not the same
    Clash { place: usize, partner: usize },
    // a place would contain itself
    Cyclic { place: usize },
    // no filling makes the names agree
    NamesDisagree { place: usize },
    // the path has a step above 2 at this index
    UnknownStep { index: usize },
    // a hole at or under a place that has to be finished
    HoleInside { place: usize },
    // a word of no class, or a lone apostrophe directly before `(` that is no nil
    UnknownWord { offset: usize },
    // a word or a parenthesis that cannot stand there
    Misplaced { offset: usize },
    // the text ends inside a list
    Unfinished { offset: usize },
    // a list that is to be filled is full, or lists are nested too deep
    NoRoom { offset: usize },
    // the leaf kind does not read the word
    UnreadLeaf { offset: usize },
}

impl Refusal {
    // The number of this refusal.
    pub fn number(&self) -> u32
        ensures { result ≡ number_of_refusal self.now }
    {
        match self {
            Refusal::TooLarge => 1,
            Refusal::UnknownKind { .. } => 2,
            Refusal::BadNumber { .. } => 3,
            Refusal::BadPart { .. } => 4,
            Refusal::HeldTwice { .. } => 5,
            Refusal::TooDeep { .. } => 6,
            Refusal::MemoryTooShort => 7,
            Refusal::NoSuchPlace { .. } => 11,
            Refusal::UnequalDepths { .. } => 12,
            Refusal::TooManyTells => 13,
            Refusal::Clash { .. } => 14,
            Refusal::Cyclic { .. } => 15,
            Refusal::NamesDisagree { .. } => 16,
            Refusal::UnknownStep { .. } => 17,
            Refusal::HoleInside { .. } => 18,
            Refusal::UnknownWord { .. } => 21,
            Refusal::Misplaced { .. } => 22,
            Refusal::Unfinished { .. } => 23,
            Refusal::NoRoom { .. } => 24,
            Refusal::UnreadLeaf { .. } => 25,
        }
    }

    // What this refusal carries: a place, an index, an offset or 0, and the second of two places.
    pub fn carried(&self) -> (usize, Option<usize>)
        ensures { result ≡ carried_by self.now }
    {
        match *self {
            Refusal::TooLarge | Refusal::MemoryTooShort | Refusal::TooManyTells => (0, None),
            Refusal::UnequalDepths { first, second } => (first, Some(second)),
            Refusal::Clash { place, partner } => (place, Some(partner)),
            Refusal::UnknownKind { place }
            | Refusal::BadNumber { place }
            | Refusal::BadPart { place }
            | Refusal::HeldTwice { place }
            | Refusal::TooDeep { place }
            | Refusal::NoSuchPlace { place }
            | Refusal::Cyclic { place }
            | Refusal::NamesDisagree { place }
            | Refusal::HoleInside { place } => (place, None),
            Refusal::UnknownStep { index } => (index, None),
            Refusal::UnknownWord { offset }
            | Refusal::Misplaced { offset }
            | Refusal::Unfinished { offset }
            | Refusal::NoRoom { offset }
            | Refusal::UnreadLeaf { offset } => (offset, None),
        }
    }
}

// The word refused, the number and what is carried, as in `refused 14 4 5`.
impl fmt::Display for Refusal {
    ghost output = { λ refusal. Some (refusal_text refusal) };

    fn fmt<W: fmt::Write>(&self, f: &mut fmt::Formatter<W>) -> fmt::Result {
        let number = self.number();
        match self.carried() {
            (first, None) => write!(f, "refused {number} {first}"),
            (first, Some(second)) => write!(f, "refused {number} {first} {second}"),
        }
    }
}

impl Error for Refusal {}
