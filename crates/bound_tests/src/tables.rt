// What `check` answers: each refusal at its first and at its last place, the order of the tests, and the memory needed.
use recipe::{Place, check as check_table};
use specimens::specimens;
use std::alloc::{AllocError, Global};
use std::iter;
use std::test::Fail;

type Row = (u32, u32, u32);

// The memory needed, or the number of the refusal and what it carries.
type Answer = Result<usize, (u32, usize, Option<usize>)>;

const NIL: Row = (0, 0, 0);

fn place((kind, a, b): Row) -> Place {
    Place { kind, a, b }
}

// A table of `size` places, which ends in the rows and has nils before them.
fn table(heap: Global, size: usize, rows: &[Row]) -> Result<Vec<Place>, AllocError> {
    let nils = iter::repeat_n(NIL, size.saturating_sub(rows.len()));
    nils.chain(rows.iter().copied()).map(place).collect(heap)
}

// What `check` answers on a table that ends in the rows, over so many leaves.
fn answer(heap: Global, size: usize, rows: &[Row], leaves: usize) -> Result<Answer, AllocError> {
    let table = table(heap, size, rows)?;
    let leaves: Vec<u8> = iter::repeat_n(0, leaves).collect(heap)?;
    Ok(check_table(&table, &leaves).map_err(|refusal| {
        let (first, second) = refusal.carried();
        (refusal.number(), first, second)
    }))
}

// The size of a table, the rows at its end, how many leaves there are, and the answer.
const TABLES: [(usize, &[Row], usize, Answer); 57] = [
    // the memory needed: places × (8 × names + 64) + 1024
    (0, &[], 0, Ok(1024)),
    (0, &[], 512, Ok(1024)),
    (1, &[NIL], 0, Ok(1088)),
    (1, &[(2, 0, 0)], 0, Ok(1096)),
    (1, &[(2, 63, 0)], 0, Ok(1600)),
    (1, &[(3, 511, 0)], 0, Ok(1088)),
    (2, &[(1, 0, 0), (1, 1, 0)], 2, Ok(1152)),
    (2, &[(4, 5, 1), NIL], 0, Ok(1248)),
    (2, &[(4, 5, 1), (2, 9, 0)], 0, Ok(1312)),
    (3, &[(5, 1, 2), NIL, NIL], 0, Ok(1216)),
    (3, &[(5, 2, 1), NIL, NIL], 0, Ok(1216)),
    (512, &[], 512, Ok(33_792)),
    (512, &[(2, 63, 0)], 0, Ok(295_936)),
    // too large, before all else
    (513, &[], 0, Err((1, 0, None))),
    (0, &[], 513, Err((1, 0, None))),
    (513, &[(6, 0, 0)], 0, Err((1, 0, None))),
    // an unknown kind
    (1, &[(6, 0, 0)], 0, Err((2, 0, None))),
    (1, &[(u32::MAX, 0, 0)], 0, Err((2, 0, None))),
    (512, &[(6, 0, 0)], 0, Err((2, 511, None))),
    // a number that does not fit
    (1, &[(1, 0, 0)], 0, Err((3, 0, None))),
    (1, &[(1, 512, 0)], 512, Err((3, 0, None))),
    (512, &[(1, 2, 0)], 2, Err((3, 511, None))),
    (1, &[(2, 64, 0)], 0, Err((3, 0, None))),
    (512, &[(2, 64, 0)], 0, Err((3, 511, None))),
    (1, &[(3, 512, 0)], 0, Err((3, 0, None))),
    (512, &[(3, u32::MAX, 0)], 0, Err((3, 511, None))),
    (2, &[(4, 64, 1), NIL], 0, Err((3, 0, None))),
    (512, &[(4, 64, 511), NIL], 0, Err((3, 510, None))),
    (1, &[(0, 1, 0)], 0, Err((3, 0, None))),
    (1, &[(0, 0, 1)], 0, Err((3, 0, None))),
    (1, &[(1, 0, 1)], 1, Err((3, 0, None))),
    (1, &[(2, 0, 1)], 0, Err((3, 0, None))),
    (512, &[(3, 0, 1)], 0, Err((3, 511, None))),
    // a part that is its holder or lower, or past the end
    (1, &[(4, 0, 0)], 0, Err((4, 0, None))),
    (1, &[(4, 0, 1)], 0, Err((4, 0, None))),
    (1, &[(4, 0, u32::MAX)], 0, Err((4, 0, None))),
    (2, &[(5, 1, 2), NIL], 0, Err((4, 0, None))),
    (2, &[(5, 2, 1), NIL], 0, Err((4, 0, None))),
    (2, &[(5, 0, 1), NIL], 0, Err((4, 0, None))),
    (2, &[NIL, (4, 0, 0)], 0, Err((4, 1, None))),
    (512, &[(4, 0, 512)], 0, Err((4, 511, None))),
    (512, &[(5, 0, 1)], 0, Err((4, 511, None))),
    // a place that is held twice
    (2, &[(5, 1, 1), NIL], 0, Err((5, 0, None))),
    (3, &[(4, 0, 2), (4, 0, 2), NIL], 0, Err((5, 1, None))),
    (4, &[(5, 2, 3), (4, 0, 3), NIL, NIL], 0, Err((5, 1, None))),
    (4, &[(4, 0, 3), (5, 2, 3), NIL, NIL], 0, Err((5, 1, None))),
    (4, &[(4, 0, 3), (5, 3, 2), NIL, NIL], 0, Err((5, 1, None))),
    (512, &[(5, 511, 511), NIL], 0, Err((5, 510, None))),
    (
        512,
        &[(4, 0, 511), (4, 0, 511), NIL],
        0,
        Err((5, 510, None)),
    ),
    // two faults at one place: the lower number; at two places: the lower place
    (1, &[(6, 1, 1)], 0, Err((2, 0, None))),
    (1, &[(4, 64, 0)], 0, Err((3, 0, None))),
    (1, &[(5, 0, 0)], 0, Err((4, 0, None))),
    (3, &[(4, 0, 2), (5, 2, 1), NIL], 0, Err((4, 1, None))),
    (2, &[(5, 1, 1), (6, 0, 0)], 0, Err((5, 0, None))),
    (2, &[(2, 64, 0), (6, 0, 0)], 0, Err((3, 0, None))),
    (2, &[(4, 0, 0), (6, 0, 0)], 0, Err((4, 0, None))),
    (3, &[(4, 0, 2), (4, 0, 2), (6, 0, 0)], 0, Err((5, 1, None))),
];

#[test]
fn tables_are_checked_place_by_place(rt: HostRuntime) -> Result<(), Fail> {
    for (i, (size, rows, leaves, expected)) in TABLES.into_iter().enumerate() {
        assert_eq!(rt; answer(rt.alloc(), size, rows, leaves)?, expected, "{}", i);
    }
    Ok(())
}

// A chain of binds, each of the next place, and the tail behind them, at the end of a table of `size` places.
fn chain(heap: Global, size: usize, binds: usize, tail: &[Row]) -> Result<Vec<Row>, AllocError> {
    let end = u32::try_from(size.saturating_sub(tail.len())).unwrap_or(u32::MAX);
    let first = end.saturating_sub(u32::try_from(binds).unwrap_or(u32::MAX));
    let chain = (first..end).map(|p| (4, 0, p.saturating_add(1)));
    chain.chain(tail.iter().copied()).collect(heap)
}

// The size of a table, how many binds there are in a chain, the rows after it, at the end of the table, and the answer.
const CHAINS: [(usize, usize, &[Row], Answer); 9] = [
    (65, 64, &[NIL], Ok(5704)),
    (66, 65, &[NIL], Err((6, 65, None))),
    (512, 64, &[NIL], Ok(37_888)),
    (512, 65, &[NIL], Err((6, 511, None))),
    (100, 98, &[NIL], Err((6, 66, None))),
    // two faults at the place that is too deep
    (66, 65, &[(6, 0, 0)], Err((2, 65, None))),
    (66, 65, &[(2, 64, 0)], Err((3, 65, None))),
    (66, 65, &[(4, 0, 66)], Err((4, 65, None))),
    (67, 65, &[(5, 66, 66), NIL], Err((5, 65, None))),
];

#[test]
fn a_place_is_at_most_64_binds_deep(rt: HostRuntime) -> Result<(), Fail> {
    for (i, (size, binds, tail, expected)) in CHAINS.into_iter().enumerate() {
        let rows = chain(rt.alloc(), size, binds, tail)?;
        assert_eq!(rt; answer(rt.alloc(), size, &rows, 0)?, expected, "{}", i);
    }
    Ok(())
}

// The memory that the table of each worked example needs.
const NEEDED: [usize; 8] = [1344, 1552, 1424, 1280, 1504, 1792, 1280, 1152];

#[test]
fn the_tables_of_the_worked_examples_are_accepted(rt: HostRuntime) {
    for (specimen, needed) in specimens().into_iter().zip(NEEDED) {
        let answer = check_table(specimen.places, specimen.leaves);
        assert_eq!(rt; answer, Ok(needed), "{}", specimen.recipes);
    }
}
