// The lines that sheets answer with.
use crate::lines::{
    Asked, add_alike, add_look, add_opened, add_pairs, add_tell, at_seal, read_line,
};
use recipe::{Leaf, Place, Refusal};
use sheet::{OpenSheet, SealedSheet, open};
use std::alloc::{AllocError, Global};

// Makes a call on an open sheet, and adds its line.
fn add_open(lines: &mut String, sheet: &mut OpenSheet, asked: &Asked) -> Result<(), AllocError> {
    match asked {
        Asked::Tell(p, q) => add_tell(lines, *p, *q, sheet.tell(*p, *q)),
        Asked::Look(place, steps) => add_look(lines, *place, steps, sheet.look(*place, steps)),
        Asked::Alike(p, q) => add_alike(lines, *p, *q, sheet.alike(*p, *q)),
        Asked::Standing => writeln!(lines, "standing {}", sheet.standing()),
        Asked::Opened => add_opened(lines, sheet.opened()),
        Asked::Pairs | Asked::Seal => Ok(()),
    }
}

// Makes a call on a sealed sheet, and adds its line.
fn add_sealed(lines: &mut String, sheet: &SealedSheet, asked: &Asked) -> Result<(), AllocError> {
    match asked {
        Asked::Look(place, steps) => add_look(lines, *place, steps, sheet.look(*place, steps)),
        Asked::Alike(p, q) => add_alike(lines, *p, *q, sheet.alike(*p, *q)),
        Asked::Standing => writeln!(lines, "standing {}", sheet.standing()),
        Asked::Opened => add_opened(lines, sheet.opened()),
        Asked::Pairs => add_pairs(lines, sheet.pairs()),
        Asked::Tell(..) | Asked::Seal => Ok(()),
    }
}

// The lines with the answers of a sheet to what they ask: an open sheet up to the seal, if there is one, and sealed after it.
pub(crate) fn answered<L: Leaf>(
    heap: Global,
    places: &[Place],
    leaves: &[L],
    words: usize,
    text: &str,
) -> Result<String, AllocError> {
    let mut memory = vec![in heap; u32::MAX; words]?;
    let mut lines = String::new(heap);
    let mut sheet = open(places, leaves, &mut memory);
    let (before, after, has_seal) = at_seal(text);
    for line in before.lines() {
        add_open(&mut lines, &mut sheet, &read_line(heap, line)?)?;
    }
    if has_seal {
        lines.push_str("seal\n")?;
        let sheet = sheet.seal();
        for line in after.lines() {
            add_sealed(&mut lines, &sheet, &read_line(heap, line)?)?;
        }
    }
    Ok(lines)
}

// The lines with the answers of a sheet whose table was not opened, to what they ask.
pub(crate) fn unopened(heap: Global, why: Refusal, text: &str) -> Result<String, AllocError> {
    let mut lines = String::new(heap);
    for line in text.lines() {
        match read_line(heap, line)? {
            Asked::Tell(place, q) => {
                add_tell(&mut lines, place, q, Err(Refusal::NoSuchPlace { place }))?
            }
            Asked::Look(place, steps) => {
                add_look(
                    &mut lines,
                    place,
                    &steps,
                    Err(Refusal::NoSuchPlace { place }),
                )?
            }
            Asked::Alike(place, q) => {
                add_alike(&mut lines, place, q, Err(Refusal::NoSuchPlace { place }))?
            }
            Asked::Standing => lines.push_str("standing 0\n")?,
            Asked::Opened => add_opened(&mut lines, Err(why))?,
            Asked::Pairs => lines.push_str("pairs\n")?,
            Asked::Seal => lines.push_str("seal\n")?,
        }
    }
    Ok(lines)
}
