// Playing a list of calls on the sheet that is opened from a table.
ghost use Rattle.std.specs.Prelude.{◌≡◌, ◌≤◌, [], ◌∷◌, drop, length, map};
ghost use Rattle.recipe.specs.Checking.{checked};
ghost use Rattle.recipe.specs.Histories.{RightRun, opening_answer, request, sheet_table};
ghost use Rattle.recipe.specs.Promise.{Promised};
ghost use Rattle.sheet.specs.Calls.{entries, entry_of, look_entry};
ghost use Rattle.sheet.specs.Opening as opening;
ghost use Rattle.sheet.specs.Playing.{AllRightOn, RightOn, told_more};

use crate::calls::{Call, Calls, Look};
use crate::open_sheet::{OpenSheet, open};
use crate::sealed_sheet::SealedSheet;
use recipe::{Leaf, Place, Refusal, check};

// Makes a call on an open sheet, and writes its answer beside it.
fn answer_call(sheet: &mut OpenSheet, call: &mut Call)
    ensures asked { request (entry_of call.new) ≡ request (entry_of call.old) }
    ensures right { RightOn sheet.old (entry_of call.new) }
    ensures sheet { sheet.new ≡ told_more sheet.old (entry_of call.new ∷ []) }
{
    match call {
        Call::Tell(tell) => tell.answer = sheet.tell(tell.first, tell.second),
        Call::Look(look) => look.answer = sheet.look(look.place, look.path),
    }
}

// Makes calls on an open sheet, in order.
fn answer_calls(sheet: &mut OpenSheet, calls: &mut [Call])
    ensures asked { map request (map entry_of calls.new) ≡ map request (map entry_of calls.old) }
    ensures right { AllRightOn sheet.old (map entry_of calls.new) }
    ensures sheet { sheet.new ≡ told_more sheet.old (map entry_of calls.new) }
{
    for call in calls.iter_mut() {
        answer_call(sheet, call);
    }
}

// Makes a look on a sealed sheet, and writes its answer beside it.
fn answer_look(sheet: &SealedSheet, look: &mut Look)
    ensures asked { request (look_entry look.new) ≡ request (look_entry look.old) }
    ensures right { RightOn sheet.now (look_entry look.new) }
{
    look.answer = sheet.look(look.place, look.path);
}

// Makes looks on a sealed sheet.
fn answer_looks(sheet: &SealedSheet, looks: &mut [Look])
    ensures asked { map request (map look_entry looks.new) ≡ map request (map look_entry looks.old) }
    ensures right { AllRightOn sheet.now (map look_entry looks.new) }
{
    for look in looks.iter_mut() {
        answer_look(sheet, look);
    }
}

// Makes the calls on an open sheet, and seals it where they say so; says why the sheet was not opened, if it was not.
fn answer_all(mut sheet: OpenSheet, calls: &mut Calls) -> Result<(), Refusal>
    ensures opened { result ≡ sheet.entry.opened }
    ensures asked { map request (entries calls.new) ≡ map request (entries calls.old) }
    ensures right { AllRightOn sheet.entry (entries calls.new) }
{
    answer_calls(&mut sheet, &mut calls.calls);
    let opened = sheet.opened();
    if let Some(looks) = &mut calls.sealed {
        let sheet = sheet.seal();
        answer_looks(&sheet, looks);
    }
    opened
}

// How many words of a memory of this length a sheet takes: none where the table is not opened.
fn words_taken<L: Leaf>(places: &[Place], leaves: &[L], words: usize) -> usize
    ensures value { result ≡ opening.words_taken places.now leaves.now words }
    ensures within { result ≤ words }
{
    match check(places, leaves) {
        Ok(needed) if needed <= words => needed,
        _ => 0,
    }
}

/// Opens a table over a list of leaves in a lent memory, and makes calls on the sheet, in order: the answer to each is written
/// beside it. The result is why the table was not opened, if it was not (1 to 7, as `OpenSheet::opened` gives it); all places
/// are past the end then.
///
/// For every table, list of leaves, memory and list of calls the answers are the right ones, and keep what is promised of a
/// sheet in terms of fillings. Words of the memory past those that the sheet takes stay as they are; what the others hold
/// afterwards is not said. docs/RULES.md, "The promise".
pub fn play<L: Leaf>(
    places: &[Place],
    leaves: &[L],
    memory: &mut [u32],
    calls: &mut Calls,
) -> Result<(), Refusal>
    ensures opened { result ≡ opening_answer (length memory.old) (checked places.now leaves.now) }
    ensures run { let asked = map request (entries calls.old) in
        RightRun L.equates places.now leaves.now (length memory.old) asked (entries calls.new) }
    ensures promise { let T = sheet_table places.now leaves.now (length memory.old) in
        Promised L.equates T leaves.now (map request (entries calls.old)) (entries calls.new) }
    ensures beyond { let taken = opening.words_taken places.now leaves.now (length memory.old) in
        drop taken memory.new ≡ drop taken memory.old }
{
    let taken = words_taken(places, leaves, memory.len());
    let (words, _) = memory.split_at_mut(taken);
    answer_all(open(places, leaves, words), calls)
}
