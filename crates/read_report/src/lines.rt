// The lines of a report: one for each place, or one for a refusal.
ghost use Rattle.std.specs.Prelude.{◌≡◌, ◌++◌, IfOk, OnOk, Some, take};
ghost use Rattle.read_report.specs.Lent.{lists_of};
ghost use Rattle.read_report.specs.Report.{word_text, leaf_text, kind_of, kind_text, spelled, line_of, lines_of, report_of};

use leaves::Symbol;
use notation::Counts;
use recipe::{Kind, PackedSpelling, Place, Refusal};
use std::alloc::{AllocError, Global};
use std::fmt;

// Adds a name or a hole of a list, if the list has it.
fn add_word(out: &mut Vec<u8>, word: Option<u64>) -> Result<(), AllocError>
    ensures { OnOk result (out.new.items ≡ out.old.items ++ word_text word) }
{
    match word {
        Some(packed) => {
            let heap = *out.allocator();
            let spelling = PackedSpelling(packed);
            out.extend_from_slice(format!(in heap; " {spelling}")?.as_bytes())
        }
        None => Ok(()),
    }
}

// Adds a leaf of a list, if the list has it.
fn add_leaf(out: &mut Vec<u8>, leaf: Option<Symbol>) -> Result<(), AllocError>
    ensures { OnOk result (out.new.items ≡ out.old.items ++ leaf_text leaf) }
{
    match leaf {
        Some(symbol) => {
            let heap = *out.allocator();
            out.extend_from_slice(format!(in heap; " {symbol}")?.as_bytes())
        }
        None => Ok(()),
    }
}

// The kind that has the number, if one has.
fn kind_of(number: u32) -> Option<Kind>
    ensures { result ≡ kind_of number }
{
    Kind::try_from(number).ok()
}

// A kind with its numbers.
#[derive(Drop)]
struct Numbered {
    kind: Option<Kind>,
    a: u32,
    b: u32,
}

impl fmt::Display for Numbered {
    ghost output = { λ n. Some (kind_text n.a n.b n.kind) };

    fn fmt<W: fmt::Write>(&self, f: &mut fmt::Formatter<W>) -> fmt::Result {
        let Numbered { a, b, .. } = self;
        match self.kind {
            None => f.write_str("unknown"),
            Some(Kind::Nil) => f.write_str("nil"),
            Some(Kind::Leaf) => write!(f, "leaf {a}"),
            Some(Kind::Name) => write!(f, "name {a}"),
            Some(Kind::Hole) => write!(f, "hole {a}"),
            Some(Kind::Bind) => write!(f, "bind {a} {b}"),
            Some(Kind::Call) => write!(f, "call {a} {b}"),
        }
    }
}

// The lists of a reading.
#[derive(Drop)]
pub(crate) struct Lent<'l> {
    pub(crate) places: &'l [Place],
    pub(crate) names: &'l [u64],
    pub(crate) holes: &'l [u64],
    pub(crate) leaves: &'l [Symbol],
}

impl Lent<'_> {
    // Adds the spelling of the leaf, name or hole that has the number; of a bind that of its name.
    fn add_spelled(
        &self,
        out: &mut Vec<u8>,
        number: u32,
        kind: Option<Kind>,
    ) -> Result<(), AllocError>
        ensures { OnOk result (out.new.items ≡ out.old.items ++ spelled (lists_of self.now) number kind) }
    {
        match kind {
            Some(Kind::Leaf) => add_leaf(out, self.leaves.get(number as usize).copied()),
            Some(Kind::Name | Kind::Bind) => add_word(
                out,
                self.names.get(number as usize).copied(),
            ),
            Some(Kind::Hole) => add_word(out, self.holes.get(number as usize).copied()),
            Some(Kind::Nil | Kind::Call) | None => Ok(()),
        }
    }

    // Adds the line of the place that has the number.
    fn add_line(&self, out: &mut Vec<u8>, number: usize, place: &Place) -> Result<(), AllocError>
        ensures { OnOk result (out.new.items ≡ out.old.items ++ line_of (lists_of self.now) (number, place.now)) }
    {
        let heap = *out.allocator();
        let kind = kind_of(place.kind);
        let numbered = Numbered {
            kind,
            a: place.a,
            b: place.b,
        };
        out.extend_from_slice(format!(in heap; "{number} {numbered}")?.as_bytes())?;
        self.add_spelled(out, place.a, kind)?;
        out.extend_from_slice(b"\n")
    }

    // The first places.
    fn first_places(&self, count: usize) -> &[Place]
        ensures { result.now ≡ take count self.now.places.now }
    {
        self.places.get(..count).unwrap_or(self.places)
    }

    // The lines of the places, the first of which has the number 0.
    fn lines(&self, heap: Global, places: &[Place]) -> Result<Vec<u8>, AllocError>
        ensures { IfOk result (λ v. v.items ≡ lines_of (lists_of self.now) 0 places.now) }
    {
        let mut out = Vec::new(heap);
        for (number, place) in places.iter().enumerate() {
            self.add_line(&mut out, number, place)?;
        }
        Ok(out)
    }

    // The report on a reading that left these lists and answered so.
    pub(crate) fn report(
        &self,
        heap: Global,
        answer: Result<Counts, Refusal>,
    ) -> Result<Vec<u8>, AllocError>
        ensures { IfOk result (λ v. v.items ≡ report_of (lists_of self.now) answer) }
    {
        match answer {
            Ok(counts) => self.lines(heap, self.first_places(counts.places)),
            Err(refusal) => Ok(format!(in heap; "text {refusal}\n")?.into_bytes()),
        }
    }
}
