// The answers of a sheet, line by line.
ghost use Rattle.std.specs.Prelude.{◌≡◌, ◌+◌, ◌≤◌, length, position};
ghost use Rattle.listing.specs.Listed.{HolesListed, TellsListed, hole_place, is_hole};

use crate::lines::{Lines, put_hole, put_over, put_tell};
use recipe::{Kind, Place};
use sheet::OpenSheet;

// Tells the first and the second place, the third and the fourth, and so on; a last odd one is left over.
pub(crate) fn tell_pairs(sheet: &mut OpenSheet, roots: &[usize], lines: &mut Lines)
    ensures { TellsListed sheet.old roots.now sheet.new lines.old.items lines.new.items }
{
    let Some((p, rest)) = roots.split_first() else {
        return;
    };
    let Some((q, rest)) = rest.split_first() else {
        put_over(lines, *p);
        return;
    };
    let answer = sheet.tell(*p, *q);
    put_tell(lines, *p, *q, &answer);
    tell_pairs(sheet, rest, lines);
}

// The first place of a hole, if there is one.
fn find_hole(places: &[Place], hole: usize) -> Option<usize>
    ensures { result ≡ position (is_hole hole) places.now }
{
    places.iter().position(|place| place.kind == Kind::Hole as u32 && place.a as usize == hole)
}

// The first place of a hole, or the number of places where there is none.
fn place_of_hole(places: &[Place], hole: usize) -> usize
    ensures { result ≡ hole_place places.now hole }
{
    find_hole(places, hole).unwrap_or(places.len())
}

// Looks at the first place of each hole, from the hole `next` on.
pub(crate) fn look_at_holes(
    sheet: &OpenSheet,
    places: &[Place],
    names: &[u64],
    holes: &[u64],
    next: usize,
    lines: &mut Lines,
)
    requires { next + length holes.now ≤ 64 }
    ensures { HolesListed sheet.now places.now names.now next holes.now lines.old.items lines.new.items }
{
    let Some((hole, rest)) = holes.split_first() else {
        return;
    };
    let answer = sheet.look(place_of_hole(places, next), &[]);
    put_hole(lines, names, *hole, &answer);
    look_at_holes(sheet, places, names, rest, next + 1, lines);
}
