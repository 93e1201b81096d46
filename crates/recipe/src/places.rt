// A place of a table, and the kinds of what can stand at one.
ghost use Rattle.std.specs.Prelude.{◌≡◌, Some};
ghost use Rattle.recipe.specs.Checking.{twice};
ghost use Rattle.recipe.specs.Kinds.{Decodes, unknown_kind_text};
ghost use Rattle.recipe.specs.Marks.{PartsDecide, parts_of};
ghost use Rattle.recipe.specs.Tables.{has_part};

use std::error::Error;
use std::fmt;

/// The record of one place: its kind, and two numbers that mean what the kind says. docs/RULES.md, "Tables".
#[derive(Clone, Copy, Debug, PartialEq, Eq)]
pub struct Place {
    pub kind: u32,
    pub a: u32,
    pub b: u32,
}

impl Place {
    /// Nil.
    pub const fn nil() -> Place
        ensures { result ≡ record { kind = 0; a = 0; b = 0 } }
    {
        Place {
            kind: Kind::Nil as u32,
            a: 0,
            b: 0,
        }
    }

    /// The leaf that has this index in the list of leaves.
    pub const fn leaf(index: u32) -> Place
        ensures { result ≡ record { kind = 1; a = index; b = 0 } }
    {
        Place {
            kind: Kind::Leaf as u32,
            a: index,
            b: 0,
        }
    }

    /// The name that has this number.
    pub const fn name(number: u32) -> Place
        ensures { result ≡ record { kind = 2; a = number; b = 0 } }
    {
        Place {
            kind: Kind::Name as u32,
            a: number,
            b: 0,
        }
    }

    /// The hole that has this number.
    pub const fn hole(number: u32) -> Place
        ensures { result ≡ record { kind = 3; a = number; b = 0 } }
    {
        Place {
            kind: Kind::Hole as u32,
            a: number,
            b: 0,
        }
    }

    /// A bind of the name that has this number, over the place of its inside.
    pub const fn bind(name: u32, inside: u32) -> Place
        ensures { result ≡ record { kind = 4; a = name; b = inside } }
    {
        Place {
            kind: Kind::Bind as u32,
            a: name,
            b: inside,
        }
    }

    /// A call, with the places of its two parts.
    pub const fn call(left: u32, right: u32) -> Place
        ensures { result ≡ record { kind = 5; a = left; b = right } }
    {
        Place {
            kind: Kind::Call as u32,
            a: left,
            b: right,
        }
    }

    // Whether some part of the place passes the test.
    pub(crate) fn any_part<F: Fn(u32) -> bool>(&self, test: F) -> bool
        requires { F.IsAlwaysCallable test }
        ensures { PartsDecide (F.post test) (parts_of self.now) result }
    {
        match Kind::try_from(self.kind) {
            Ok(Kind::Bind) => test(self.b),
            Ok(Kind::Call) => test(self.a) || test(self.b),
            _ => false,
        }
    }

    /// Whether a place is a part of what stands here. docs/RULES.md, "Tables".
    pub fn has_part(&self, place: usize) -> bool
        ensures { result ≡ has_part place self.now }
    {
        self.any_part(|part| part as usize == place)
    }

    // Whether both parts of the place are one place.
    pub(crate) fn has_equal_parts(&self) -> bool
        ensures { result ≡ twice (parts_of self.now) }
    {
        self.kind == Kind::Call as u32 && self.a == self.b
    }
}

// What stands at a place; `as u32` is the number that a record has for it.
#[derive(Clone, Copy, Debug, PartialEq, Eq)]
pub enum Kind {
    Nil,
    Leaf,
    Name,
    Hole,
    Bind,
    Call,
}

// A number that no kind has.
#[derive(Clone, Copy, Debug, PartialEq, Eq)]
pub struct UnknownKind(pub u32);

impl TryFrom<u32> for Kind {
    type Error = UnknownKind;

    ghost try_from_gives = { Decodes };

    fn try_from(number: u32) -> Result<Kind, UnknownKind> {
        match number {
            0 => Ok(Kind::Nil),
            1 => Ok(Kind::Leaf),
            2 => Ok(Kind::Name),
            3 => Ok(Kind::Hole),
            4 => Ok(Kind::Bind),
            5 => Ok(Kind::Call),
            _ => Err(UnknownKind(number)),
        }
    }
}

impl fmt::Display for UnknownKind {
    ghost output = { λ unknown. Some (unknown_kind_text unknown) };

    fn fmt<W: fmt::Write>(&self, f: &mut fmt::Formatter<W>) -> fmt::Result {
        write!(f, "no kind has the number {}", self.0)
    }
}

impl Error for UnknownKind {}
