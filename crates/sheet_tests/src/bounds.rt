// Sheets at the bounds: of memory, of places, of names, and of the number of tells.
use crate::answers::{answered, unopened};
use crate::lines::trimmed;
use leaves::Symbol;
use recipe::Refusal::{BadNumber, BadPart, HeldTwice, MemoryTooShort, TooLarge, UnknownKind};
use recipe::{Kind, Place, Refusal, check};
use std::alloc::{AllocError, Global};
use std::iter;
use std::test::Fail;

const NO_LEAVES: [Symbol; 0] = [];

// The record of a place.
macro_rules! place {
    ($kind:ident, $a:expr, $b:expr) => {
        Place { kind: Kind::$kind as u32, a: $a, b: $b }
    };
}

// Tables that no text spells, so many words, and why the table is not opened in them.
const UNOPENED: [(&[Place], usize, Refusal); 8] = [
    (&[], 1023, MemoryTooShort),
    (&[], 0, MemoryTooShort),
    // one place with the last name needs 1600 words
    (&[place!(Name, 63, 0)], 1599, MemoryTooShort),
    (&[place!(Name, 64, 0)], 300_000, BadNumber { place: 0 }),
    // a leaf that is not listed
    (&[place!(Leaf, 0, 0)], 1088, BadNumber { place: 0 }),
    (
        &[Place {
            kind: 6,
            a: 0,
            b: 0,
        }],
        1088,
        UnknownKind { place: 0 },
    ),
    (
        &[place!(Nil, 0, 0), place!(Call, 1, 2)],
        0,
        BadPart { place: 1 },
    ),
    (
        &[place!(Call, 1, 1), place!(Nil, 0, 0)],
        2000,
        HeldTwice { place: 0 },
    ),
];

// Calls on a sheet whose table was not opened.
const CALLS: &str =
    "opened\ntell 0 0\ntell 3 1\nlook 0 .\nlook 1 .3\nstanding\nseal\nlook 0 .\nstanding\nopened\npairs\n";

#[test]
fn a_table_that_is_not_opened_says_why_and_has_no_places(rt: HostRuntime) -> Result<(), Fail> {
    for (i, (places, words, refusal)) in UNOPENED.into_iter().enumerate() {
        let lines = answered(rt.alloc(), places, &NO_LEAVES, words, CALLS)?;
        assert_eq!(rt; lines, unopened(rt.alloc(), refusal, CALLS)?, "{}", i);
    }
    Ok(())
}

// Places of one form without parts, so many words, and the lines that their sheet answers.
const OPENED: [(&[Place], usize, &str); 4] = [
    // as many words as are needed
    (
        &[place!(Name, 63, 0)],
        1600,
        "tell 0 0 accepted
        look 0 . name 63
        tell 0 1 refused 11 1
        tell 2 1 refused 11 2
        opened accepted
        seal
        standing 1
        pairs 0 0",
    ),
    (
        &[place!(Nil, 0, 0)],
        1088,
        "tell 0 0 accepted
        look 0 . nil
        tell 1 0 refused 11 1
        standing 1",
    ),
    // more words
    (
        &[place!(Hole, 511, 0), place!(Hole, 7, 0)],
        10_000,
        "tell 0 1 accepted
        look 0 . open
        opened accepted
        standing 1",
    ),
    // without places
    (
        &[],
        1024,
        "opened accepted
        tell 3 0 refused 11 3
        look 0 . refused 11 0
        seal
        pairs",
    ),
];

#[test]
fn a_table_is_opened_in_the_words_that_it_needs(rt: HostRuntime) -> Result<(), Fail> {
    for (i, (places, words, calls)) in OPENED.into_iter().enumerate() {
        let lines = answered(rt.alloc(), places, &NO_LEAVES, words, calls)?;
        assert_eq!(rt; lines, trimmed(rt.alloc(), calls)?, "{}", i);
    }
    Ok(())
}

// A table of 512 places: 64 binds of all names over X, the binds of these names in the other order over Y, then X, the name
// 5, Y, the name 58, Y, the name 5, and 376 names, each of its place modulo 64.
fn largest_table(heap: Global) -> Result<Vec<Place>, AllocError> {
    let first = (0..64)
        .zip(1..65)
        .map(|(name, inside)| place!(Bind, name, inside));
    let second = (0..64)
        .rev()
        .zip(66..130)
        .map(|(name, inside)| place!(Bind, name, inside));
    let between = [
        place!(Hole, 0, 0),
        place!(Name, 5, 0),
        place!(Hole, 1, 0),
        place!(Name, 58, 0),
        place!(Hole, 1, 0),
        place!(Name, 5, 0),
    ];
    let names = (8..64)
        .chain((0..64).cycle())
        .take(376)
        .map(|name| place!(Name, name, 0));
    let first = first.chain(iter::once(place!(Hole, 0, 0)));
    let second = second.chain(iter::once(place!(Hole, 1, 0)));
    first
        .chain(second)
        .chain(between)
        .chain(names)
        .collect(heap)
}

// What the largest table is told. X is the name 5 exactly where Y is the name 58.
const LARGEST: &str = "tell 0 65 accepted
    tell 64 129 accepted
    tell 64 130 refused 12 64 130
    look 64 . open
    tell 130 131 accepted
    look 64 . name 5
    look 129 . name 58
    tell 132 133 accepted
    tell 134 135 refused 16 135
    tell 136 137 refused 16 137
    tell 136 200 accepted
    tell 510 511 refused 16 511
    tell 511 447 accepted
    tell 511 512 refused 11 512
    tell 0 511 refused 14 0 447
    look 0 . bind
    look 0 .2222222222222222222222222222222222222222222222222222222222222222 local 5
    look 6 .2222222222222222222222222222222222222222222222222222222222 name 5
    look 65 .2222222222222222222222222222222222222222222222222222222222222222 local 5
    look 0 .22222222222222222222222222222222222222222222222222222222222222222 absent
    look 512 . refused 11 512
    seal
    look 134 . name 58
    look 511 . name 63
    standing 6
    pairs 0 65 64 129 130 131 132 133 136 200 511 447";

#[test]
fn all_512_places_and_64_names_fit_in_295936_words_and_in_no_fewer(
    rt: HostRuntime,
) -> Result<(), Fail> {
    let heap = rt.alloc();
    let places = largest_table(heap)?;
    assert_eq!(rt; places.len(), 512);
    assert_eq!(rt; check(&places, &NO_LEAVES), Ok(295_936));
    let lines = answered(heap, &places, &NO_LEAVES, 295_936, LARGEST)?;
    assert_eq!(rt; lines, trimmed(heap, LARGEST)?);
    let lines = answered(heap, &places, &NO_LEAVES, 295_935, LARGEST)?;
    assert_eq!(rt; lines, unopened(heap, MemoryTooShort, LARGEST)?);
    Ok(())
}

#[test]
fn a_place_more_is_too_large(rt: HostRuntime) -> Result<(), Fail> {
    let places = vec![in rt.alloc(); place!(Nil, 0, 0); 513]?;
    let lines = answered(rt.alloc(), &places, &NO_LEAVES, 300_000, CALLS)?;
    assert_eq!(rt; lines, unopened(rt.alloc(), TooLarge, CALLS)?);
    Ok(())
}

// Runs of lines on (lambda (a) X) b: how often a line stands.
const RUNS: [&[(usize, &str)]; 2] = [
    // the last of 513 tells; no such place and unequal depths before it, a clash after it
    &[
        (512, "tell 0 0 accepted\n"),
        (1, "tell 0 0 refused 13 0\n"),
        (1, "tell 0 3 refused 11 3\n"),
        (1, "tell 0 1 refused 12 0 1\n"),
        (1, "tell 0 2 refused 13 0\n"),
        (1, "tell 1 1 refused 13 0\n"),
        (1, "look 1 . open\nlook 0 .2 open\nstanding 512\n"),
        (1, "seal\nlook 2 . name 1\nstanding 512\npairs"),
        (1024, " 0"),
        (1, "\n"),
    ],
    // tells that are refused do not count, and the pairs stand in the order in which they were told
    &[
        (600, "tell 0 2 refused 14 0 2\n"),
        (300, "tell 2 2 accepted\n"),
        (600, "tell 0 1 refused 12 0 1\n"),
        (211, "tell 1 1 accepted\n"),
        (1, "tell 2 0 refused 14 0 2\ntell 0 0 accepted\n"),
        (2, "tell 2 2 refused 13 0\n"),
        (1, "seal\nstanding 512\npairs"),
        (300, " 2 2"),
        (211, " 1 1"),
        (1, " 0 0\n"),
    ],
];

// Each line as often as its run says.
fn lines_of(heap: Global, runs: &[(usize, &str)]) -> Result<String, AllocError> {
    let mut lines = String::new(heap);
    for (times, line) in runs {
        for _ in 0..*times {
            lines.push_str(line)?;
        }
    }
    Ok(lines)
}

#[test]
fn at_most_512_tells_are_accepted(rt: HostRuntime) -> Result<(), Fail> {
    let places = [place!(Bind, 0, 1), place!(Hole, 0, 0), place!(Name, 1, 0)];
    for (i, runs) in RUNS.into_iter().enumerate() {
        let calls = lines_of(rt.alloc(), runs)?;
        let lines = answered(rt.alloc(), &places, &NO_LEAVES, 1264, &calls)?;
        assert_eq!(rt; lines, calls, "{}", i);
    }
    Ok(())
}
