// Rows as lists of calls that are played at once.
use crate::lines::{Asked, add_look, add_tell, at_seal, read_line};
use recipe::{Leaf, Place, Refusal};
use sheet::{Call, Calls, Look, Tell, play};
use std::alloc::{AllocError, Global};

// What the lines of a text ask.
fn read_lines(heap: Global, text: &str) -> Result<Vec<Asked>, AllocError> {
    let mut asked = Vec::new(heap);
    for line in text.lines() {
        asked.push(read_line(heap, line)?)?;
    }
    Ok(asked)
}

// A look with an answer that it is never given.
fn look<'p>(place: usize, path: &'p [u8]) -> Look<'p> {
    Look {
        place,
        path,
        answer: Err(Refusal::MemoryTooShort),
    }
}

// A tell with an answer that no tell of an opened table is given.
fn tell(first: usize, second: usize) -> Tell {
    Tell {
        first,
        second,
        answer: Err(Refusal::MemoryTooShort),
    }
}

// The tells and looks that are asked for.
fn calls_of<'p>(heap: Global, asked: &'p [Asked]) -> Result<Vec<Call<'p>>, AllocError> {
    let calls = asked.iter().filter_map(|asked| match asked {
        Asked::Tell(p, q) => Some(Call::Tell(tell(*p, *q))),
        Asked::Look(place, steps) => Some(Call::Look(look(*place, steps))),
        Asked::Alike(..) | Asked::Standing | Asked::Opened | Asked::Pairs | Asked::Seal => None,
    });
    calls.collect(heap)
}

// The looks that are asked for.
fn looks_of<'p>(heap: Global, asked: &'p [Asked]) -> Result<Vec<Look<'p>>, AllocError> {
    let looks = asked.iter().filter_map(|asked| match asked {
        Asked::Look(place, steps) => Some(look(*place, steps)),
        _ => None,
    });
    looks.collect(heap)
}

// Adds the lines of calls, with a seal if there is one.
fn add_calls(lines: &mut String, calls: &Calls) -> Result<(), AllocError> {
    for call in calls.calls.iter() {
        match call {
            Call::Tell(tell) => add_tell(lines, tell.first, tell.second, tell.answer)?,
            Call::Look(look) => add_look(lines, look.place, look.path, look.answer)?,
        }
    }
    if let Some(looks) = &calls.sealed {
        lines.push_str("seal\n")?;
        for look in looks.iter() {
            add_look(lines, look.place, look.path, look.answer)?;
        }
    }
    Ok(())
}

// The calls that are asked for before a seal and after it, if there is one.
fn calls_asked<'p>(
    heap: Global,
    before: &'p [Asked],
    after: &'p [Asked],
    has_seal: bool,
) -> Result<Calls<'p>, AllocError> {
    let calls = calls_of(heap, before)?;
    if has_seal {
        let looks = looks_of(heap, after)?;
        Ok(Calls {
            calls,
            sealed: Some(looks),
        })
    } else {
        Ok(Calls {
            calls,
            sealed: None,
        })
    }
}

// The lines of the tells and looks of a text that is played, with their answers, and whether the table was opened.
pub(crate) fn played<L: Leaf>(
    heap: Global,
    places: &[Place],
    leaves: &[L],
    memory: &mut [u32],
    text: &str,
) -> Result<(String, Result<(), Refusal>), AllocError> {
    let (before, after, has_seal) = at_seal(text);
    let before = read_lines(heap, before)?;
    let after = read_lines(heap, after)?;
    let mut calls = calls_asked(heap, &before, &after, has_seal)?;
    let opened = play(places, leaves, memory, &mut calls);
    let mut lines = String::new(heap);
    add_calls(&mut lines, &calls)?;
    Ok((lines, opened))
}

// The lines of a text that are tells, looks or a seal.
pub(crate) fn only_calls(heap: Global, text: &str) -> Result<String, AllocError> {
    let mut lines = String::new(heap);
    for line in text.lines() {
        let line = line.trim();
        if line.starts_with("tell") || line.starts_with("look") || line == "seal" {
            writeln!(lines, "{line}")?;
        }
    }
    Ok(lines)
}
