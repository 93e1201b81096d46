// The worked examples.
use recipe::check;
use sheet::{OpenSheet, open};
use specimens::{Call, specimens};
use std::test::Fail;

// Whether the sheet answers a call as listed.
fn is_answered(sheet: &mut OpenSheet, call: Call) -> bool {
    match call {
        Call::Tell(p, q, answer) => sheet.tell(p, q) == answer,
        Call::Look(place, path, answer) => sheet.look(place, path) == answer,
    }
}

// The index of the first call that is answered in another way, if there is one.
fn first_wrong(sheet: &mut OpenSheet, calls: &[Call]) -> Option<usize> {
    for (i, call) in calls.iter().enumerate() {
        if !is_answered(sheet, *call) {
            return Some(i);
        }
    }
    None
}

#[test]
fn the_worked_examples_are_answered_as_listed(rt: HostRuntime) -> Result<(), Fail> {
    for specimen in specimens() {
        let words = check(specimen.places, specimen.leaves)?;
        let mut memory = vec![in rt.alloc(); u32::MAX; words]?;
        let mut sheet = open(specimen.places, specimen.leaves, &mut memory);
        assert_eq!(rt;
            first_wrong(&mut sheet, specimen.calls),
            None,
            "{}",
            specimen.recipes
        );
    }
    Ok(())
}
