// The shapes of tables that calls are measured on.
ghost use Rattle.std.specs.Iterator.{IsFinite};

use crate::table::Table;
use std::alloc::{AllocError, Global};
use std::fmt;

#[derive(Clone, Copy, Debug, PartialEq, Eq)]
pub(crate) enum Shape {
    // a hole is a call of the next hole twice, and so on
    SharedHoles,
    // binds 64 deep are told with binds of other names
    DeepBinders,
    // one hole is under many binders, all told to be one
    OneHole,
    // binds of one name are told with binds of different names, and the holes under them are told again
    Shadowing,
}

impl Shape {
    pub(crate) const ALL: [Shape; 4] = [
        Shape::SharedHoles,
        Shape::DeepBinders,
        Shape::OneHole,
        Shape::Shadowing,
    ];

    // The word for a shape.
    fn word(self) -> &'static str {
        match self {
            Shape::SharedHoles => "shared_holes",
            Shape::DeepBinders => "deep_binders",
            Shape::OneHole => "one_hole",
            Shape::Shadowing => "shadowing",
        }
    }

    // The shape of this word, if there is one.
    pub(crate) fn named(word: &str) -> Option<Shape> {
        Shape::ALL.into_iter().find(|shape| shape.word() == word)
    }

    // A table of this shape and of at most so many places, with its tells and looks. A finished one has a name in place of
    // each hole.
    pub(crate) fn table(
        self,
        heap: Global,
        size: u32,
        finished: bool,
    ) -> Result<Table, AllocError> {
        let mut table = Table::new(heap, finished);
        match self {
            Shape::SharedHoles => share_holes(&mut table, size)?,
            Shape::DeepBinders => nest_binders(&mut table, size)?,
            Shape::OneHole => scope_one_hole(&mut table, size)?,
            Shape::Shadowing => shadow_binders(&mut table, size)?,
        }
        Ok(table)
    }
}

impl fmt::Display for Shape {
    fn fmt<W: fmt::Write>(&self, f: &mut fmt::Formatter<W>) -> fmt::Result {
        let word = self.word();
        write!(f, "{word}")
    }
}

// X0 and (X1 X1), X1 and (X2 X2), and so on. A look goes from a hole down to the last.
fn share_holes(table: &mut Table, size: u32) -> Result<(), AllocError> {
    for number in 0..size / 4 {
        let hole = table.hole(number)?;
        let call = table.call()?;
        table.hole(number + 1)?;
        table.hole(number + 1)?;
        table.tell(hole, call)?;
        table.look(hole, 0, (size / 4).saturating_sub(number))?;
    }
    Ok(())
}

// Half of the places that are left of so many.
fn half_left(table: &Table, size: u32) -> u32 {
    size.saturating_sub(table.place_after(0)) / 2
}

// Binds of the names 0, 1, .. told with binds of the names 63, 62, .., as deep as they may be, each over a hole of its own;
// and again, as long as there are places. A look goes down to the hole.
fn nest_binders(table: &mut Table, size: u32) -> Result<(), AllocError> {
    for _ in 0..size.div_ceil(130) {
        let depth = half_left(table, size).saturating_sub(1).min(64);
        let (first, _) = nest(table, 0..depth)?;
        let (second, _) = nest(table, (64 - depth..64).rev())?;
        table.tell(first, second)?;
        table.look(first, 2, depth)?;
    }
    Ok(())
}

// One hole under binders of the names 0, 1, .., 63, 0, ..: each bind is told with the one before it. A look goes from a bind to the
// hole.
fn scope_one_hole(table: &mut Table, size: u32) -> Result<(), AllocError> {
    let mut last = None;
    for number in 0..size / 2 {
        let bind = table.bind(number % 64)?;
        table.hole(0)?;
        if let Some(last) = last {
            table.tell(last, bind)?;
            table.look(last, 2, 1)?;
        }
        last = Some(bind);
    }
    Ok(())
}

// Binds of one name over a hole, told with as many binds of different names over another; then the first hole is told to be
// the one name, and the second to be the outermost of the others, which it cannot be. Again, as long as there are places. A
// look goes from the outermost bind of one name down to the hole.
fn shadow_binders(table: &mut Table, size: u32) -> Result<(), AllocError> {
    for _ in 0..size.div_ceil(132) {
        let depth = half_left(table, size).saturating_sub(3).min(63);
        let (first, one) = nest(table, (0..depth).map(|_| 0))?;
        let (second, other) = nest(table, 1..depth + 1)?;
        table.tell(first, second)?;
        table.look(first, 2, depth)?;
        name_hole(table, one, 0)?;
        name_hole(table, other, 1)?;
    }
    Ok(())
}

// A hole is told to be a name.
fn name_hole(table: &mut Table, hole: u32, name: u32) -> Result<(), AllocError> {
    let hole = table.hole(hole)?;
    let name = table.name(name)?;
    table.tell(hole, name)
}

// Binds of the names, one in the other, over a hole of their own: the outermost bind, and the number of the hole.
fn nest<I: Iterator<Item = u32> + Drop>(
    table: &mut Table,
    names: I,
) -> Result<(usize, u32), AllocError>
    requires can { I.can_next names }
    requires ends { IsFinite (I.remaining names) }
{
    let outermost = table.places.len();
    for name in names {
        table.bind(name)?;
    }
    let number = table.place_after(0);
    table.hole(number)?;
    Ok((outermost, number))
}
