// Lines of text in a buffer of 4,096 bytes; what does not fit is cut off.
ghost use Rattle.std.specs.Prelude.{◌≡◌, decimal, slice_index};
ghost use Rattle.recipe.specs.Packing.{unpacked};
ghost use Rattle.recipe.specs.Refusals.{carried_text, refusal_text};
ghost use Rattle.listing.specs.Lines.{Adds};
ghost use Rattle.listing.specs.Report.{answer_text, found_text, hole_line, leaf_text, look_text, over_line, refused_text_line, spelled_label, tell_line};

use arrayvec::ArrayVec;
use itoa::Buffer;
use recipe::{Finding, Label, Refusal, before_zero};

// How many bytes a listing has at most.
pub(crate) const SIZE: usize = 4096;

// The lines so far.
pub(crate) type Lines = ArrayVec<u8, SIZE>;

// Adds bytes, as far as they fit.
pub(crate) fn put(lines: &mut Lines, bytes: &[u8])
    ensures { Adds bytes.now lines.old.items lines.new.items }
{
    let fits = bytes.len().min(SIZE - lines.len());
    let _ = lines.try_extend_from_slice(&bytes[..fits]);
}

// Adds a number in decimal.
pub(crate) fn put_number(lines: &mut Lines, number: usize)
    ensures { Adds (decimal number) lines.old.items lines.new.items }
{
    let mut buffer = Buffer::new();
    put(lines, buffer.format(number).as_bytes());
}

// Adds what a refusal carries: one number, or two with a space between them.
fn put_carried(lines: &mut Lines, first: usize, second: Option<usize>)
    ensures { Adds (carried_text (first, second)) lines.old.items lines.new.items }
{
    put_number(lines, first);
    if let Some(second) = second {
        put(lines, b" ");
        put_number(lines, second);
    }
}

// Adds a refusal, as it is printed.
pub(crate) fn put_refusal(lines: &mut Lines, refusal: &Refusal)
    ensures { Adds (refusal_text refusal.now) lines.old.items lines.new.items }
{
    put(lines, b"refused ");
    put_number(lines, refusal.number() as usize);
    put(lines, b" ");
    let (first, second) = refusal.carried();
    put_carried(lines, first, second);
}

// Adds the line of a text that is refused.
pub(crate) fn put_refused_text(lines: &mut Lines, refusal: &Refusal)
    ensures { Adds (refused_text_line refusal.now) lines.old.items lines.new.items }
{
    put(lines, b"text ");
    put_refusal(lines, refusal);
    put(lines, b"\n");
}

// Adds accepted, or the refusal.
fn put_answer(lines: &mut Lines, answer: &Result<(), Refusal>)
    ensures { Adds (answer_text answer.now) lines.old.items lines.new.items }
{
    match answer {
        Ok(()) => put(lines, b"accepted"),
        Err(refusal) => put_refusal(lines, refusal),
    }
}

// Adds the line of a tell.
pub(crate) fn put_tell(lines: &mut Lines, p: usize, q: usize, answer: &Result<(), Refusal>)
    ensures { Adds (tell_line p q answer.now) lines.old.items lines.new.items }
{
    put(lines, b"tell ");
    put_number(lines, p);
    put(lines, b" ");
    put_number(lines, q);
    put(lines, b" ");
    put_answer(lines, answer);
    put(lines, b"\n");
}

// Adds the line of a root that is left over.
pub(crate) fn put_over(lines: &mut Lines, p: usize)
    ensures { Adds (over_line p) lines.old.items lines.new.items }
{
    put(lines, b"over ");
    put_number(lines, p);
    put(lines, b"\n");
}

// Adds the spelling that a number packs.
fn put_spelling(lines: &mut Lines, packed: u64)
    ensures { Adds (unpacked packed) lines.old.items lines.new.items }
{
    put(lines, before_zero(&packed.to_be_bytes()));
}

// Adds the number of a leaf, if it has one.
fn put_leaf(lines: &mut Lines, number: Option<usize>)
    ensures { Adds (leaf_text number) lines.old.items lines.new.items }
{
    match number {
        None => put(lines, b"leaf"),
        Some(number) => {
            put(lines, b"leaf ");
            put_number(lines, number);
        }
    }
}

// The spelling of a name, as it is packed, or 0 where the list does not have it.
fn spelling_at(names: &[u64], name: usize) -> u64
    ensures { result ≡ slice_index names.now name }
{
    if name < names.len() { names[name] } else { 0 }
}

// Adds a label, a name by its spelling.
fn put_label(lines: &mut Lines, names: &[u64], label: Label)
    ensures { Adds (spelled_label names.now label) lines.old.items lines.new.items }
{
    match label {
        Label::Nil => put(lines, b"nil"),
        Label::Leaf(number) => put_leaf(lines, number),
        Label::Name(name) => {
            put(lines, b"name ");
            put_spelling(lines, spelling_at(names, name));
        }
        Label::Local(level) => {
            put(lines, b"local ");
            put_number(lines, level);
        }
        Label::Bind => put(lines, b"bind"),
        Label::Call => put(lines, b"call"),
    }
}

// Adds what was found at a hole.
fn put_finding(lines: &mut Lines, names: &[u64], finding: Finding)
    ensures { Adds (found_text names.now finding) lines.old.items lines.new.items }
{
    match finding {
        Finding::Label(label) => put_label(lines, names, label),
        Finding::Absent => put(lines, b"absent"),
        Finding::Open => put(lines, b"open"),
    }
}

// Adds what a look at a hole came to.
fn put_look(lines: &mut Lines, names: &[u64], answer: &Result<Finding, Refusal>)
    ensures { Adds (look_text names.now answer.now) lines.old.items lines.new.items }
{
    match answer {
        Ok(finding) => put_finding(lines, names, *finding),
        Err(refusal) => put_refusal(lines, refusal),
    }
}

// Adds the line of a hole.
pub(crate) fn put_hole(
    lines: &mut Lines,
    names: &[u64],
    hole: u64,
    answer: &Result<Finding, Refusal>,
)
    ensures { Adds (hole_line names.now hole answer.now) lines.old.items lines.new.items }
{
    put_spelling(lines, hole);
    put(lines, b" ");
    put_look(lines, names, answer);
    put(lines, b"\n");
}
