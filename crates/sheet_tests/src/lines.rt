// Calls on a sheet as lines of text, each with its answer: `tell 0 2 accepted`, `look 1 .2 name 0`, `standing 1`.
// A path is a dot and its steps: each is the character that stands so many after 0, so that `.01` is the steps 0 and 1.
use recipe::{Finding, Refusal};
use std::alloc::{AllocError, Global};
use std::fmt;

// What a line asks.
#[derive(Drop)]
pub(crate) enum Asked {
    Tell(usize, usize),
    Look(usize, Vec<u8>),
    Alike(usize, usize),
    Standing,
    Opened,
    Pairs,
    Seal,
}

// The number that a word spells. Where it spells none, it is one that no line has.
fn number(word: Option<&str>) -> usize {
    match word {
        Some(word) => word.parse().unwrap_or(usize::MAX),
        None => usize::MAX,
    }
}

// The steps of a path, which follow its dot.
fn steps(heap: Global, path: Option<&str>) -> Result<Vec<u8>, AllocError> {
    let path = path.unwrap_or("");
    path.bytes()
        .skip(1)
        .map(|byte| byte.wrapping_sub(b'0'))
        .collect(heap)
}

// What a line asks, whatever answer stands in it.
pub(crate) fn read_line(heap: Global, line: &str) -> Result<Asked, AllocError> {
    let mut words = line.split_whitespace();
    match words.next() {
        Some("tell") => Ok(Asked::Tell(number(words.next()), number(words.next()))),
        Some("look") => Ok(Asked::Look(number(words.next()), steps(heap, words.next())?)),
        Some("alike") => Ok(Asked::Alike(number(words.next()), number(words.next()))),
        Some("standing") => Ok(Asked::Standing),
        Some("opened") => Ok(Asked::Opened),
        Some("pairs") => Ok(Asked::Pairs),
        _ => Ok(Asked::Seal),
    }
}

// What stands before the seal in a text, what after it, and whether there is one.
pub(crate) fn at_seal(text: &str) -> (&str, &str, bool) {
    match text.split_once("seal\n") {
        Some((before, after)) => (before, after, true),
        None => (text, "", false),
    }
}

// The lines of a text without the space around them, but for the one at the index.
pub(crate) fn without(heap: Global, text: &str, index: usize) -> Result<String, AllocError> {
    let mut lines = String::new(heap);
    for (k, line) in text.lines().enumerate() {
        if k != index {
            writeln!(lines, "{}", line.trim())?;
        }
    }
    Ok(lines)
}

// The lines of a text without the space around them.
pub(crate) fn trimmed(heap: Global, text: &str) -> Result<String, AllocError> {
    without(heap, text, usize::MAX)
}

// A path, as in a line.
#[derive(Drop)]
struct Path<'p> {
    steps: &'p [u8],
}

impl fmt::Display for Path<'_> {
    fn fmt<W: fmt::Write>(&self, f: &mut fmt::Formatter<W>) -> fmt::Result {
        f.write_str(".")?;
        for step in self.steps {
            f.write_char(char::from(step.wrapping_add(b'0')))?;
        }
        Ok(())
    }
}

// The answer to a tell, as in a line.
#[derive(Drop)]
struct Told {
    answer: Result<(), Refusal>,
}

impl fmt::Display for Told {
    fn fmt<W: fmt::Write>(&self, f: &mut fmt::Formatter<W>) -> fmt::Result {
        match self.answer {
            Ok(()) => f.write_str("accepted"),
            Err(refusal) => write!(f, "{refusal}"),
        }
    }
}

// Adds the line of a tell.
pub(crate) fn add_tell(
    lines: &mut String,
    p: usize,
    q: usize,
    answer: Result<(), Refusal>,
) -> Result<(), AllocError> {
    writeln!(lines, "tell {p} {q} {}", Told { answer })
}

// Adds the line of a look.
pub(crate) fn add_look(
    lines: &mut String,
    place: usize,
    steps: &[u8],
    answer: Result<Finding, Refusal>,
) -> Result<(), AllocError> {
    let path = Path { steps };
    match answer {
        Ok(finding) => writeln!(lines, "look {place} {path} {finding}"),
        Err(refusal) => writeln!(lines, "look {place} {path} {refusal}"),
    }
}

// Adds the line of a question whether two places are alike.
pub(crate) fn add_alike(
    lines: &mut String,
    p: usize,
    q: usize,
    answer: Result<bool, Refusal>,
) -> Result<(), AllocError> {
    match answer {
        Ok(true) => writeln!(lines, "alike {p} {q} yes"),
        Ok(false) => writeln!(lines, "alike {p} {q} no"),
        Err(refusal) => writeln!(lines, "alike {p} {q} {refusal}"),
    }
}

// Adds the line that says whether the table was opened.
pub(crate) fn add_opened(
    lines: &mut String,
    answer: Result<(), Refusal>,
) -> Result<(), AllocError> {
    writeln!(lines, "opened {}", Told { answer })
}

// Adds the line of the accepted pairs.
pub(crate) fn add_pairs(lines: &mut String, pairs: &[u32]) -> Result<(), AllocError> {
    lines.push_str("pairs")?;
    for place in pairs {
        write!(lines, " {place}")?;
    }
    lines.push_str("\n")
}
