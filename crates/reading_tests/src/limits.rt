// Long texts: lists that are full, and deep nesting.
use leaves::Symbol;
use notation::read_recipes;
use read_report::report_on;
use recipe::Place;
use std::alloc::{AllocError, Global};
use std::iter;
use std::test::Fail;

// One piece again and again, then the middle, and then another piece as often.
fn nested(
    heap: Global,
    front: &str,
    times: usize,
    middle: &str,
    back: &str,
) -> Result<Vec<u8>, AllocError> {
    let mut text = Vec::new(heap);
    for _ in 0..times {
        text.extend_from_slice(front.as_bytes())?;
    }
    text.extend_from_slice(middle.as_bytes())?;
    for _ in 0..times {
        text.extend_from_slice(back.as_bytes())?;
    }
    Ok(text)
}

// So many different words: the front with the numbers from 0, each followed by a space; and then the end.
fn numbered(heap: Global, front: &str, count: usize, end: &str) -> Result<Vec<u8>, AllocError> {
    let mut text = Vec::new(heap);
    for number in 0..count {
        text.extend_from_slice(format!(in heap; "{front}{number} ")?.as_bytes())?;
    }
    text.extend_from_slice(end.as_bytes())?;
    Ok(text)
}

// A piece, how often it comes, and what follows; then the last line of the report. The lists of a report have 64 places.
const REPEATED: [(&str, usize, &str, &str); 20] = [
    ("a ", 64, "", "\n63 name 0 a\n"),
    ("a ", 63, "X", "\n63 hole 0 X\n"),
    ("a ", 62, "(lambda (a) '())", "\n63 nil\n"),
    ("'a ", 64, "", "\n63 leaf 63 'a\n"),
    // the 65th place: a name, a hole, nil, a leaf word, a list
    ("a ", 64, "a", "text refused 24 128\n"),
    ("a ", 64, "X", "text refused 24 128\n"),
    ("a ", 64, "'()", "text refused 24 128\n"),
    ("a ", 64, "'a", "text refused 24 128\n"),
    ("a ", 64, "(a b)", "text refused 24 128\n"),
    ("a ", 62, "(a b)", "text refused 24 127\n"),
    ("a ", 63, "(lambda (a) b)", "text refused 24 138\n"),
    ("'a ", 64, "'a", "text refused 24 192\n"),
    // where nothing can stand, that is said, not that there is no room
    ("a ", 64, ")", "text refused 22 128\n"),
    ("a ", 64, "lambda", "text refused 22 128\n"),
    ("a ", 61, "(a b c)", "text refused 22 127\n"),
    ("a ", 64, "a_b", "text refused 21 128\n"),
    ("a ", 64, "'(", "text refused 21 128\n"),
    // a kind is asked last
    ("24 ", 64, "24", "text refused 24 192\n"),
    ("24 ", 64, "", "text refused 25 0\n"),
    ("'a ", 63, "24", "text refused 25 189\n"),
];

#[test]
fn a_65th_place_is_refused(rt: HostRuntime) -> Result<(), Fail> {
    for (piece, times, end, expected) in REPEATED {
        let text = nested(rt.alloc(), piece, times, end, "")?;
        let report = report_on(rt.alloc(), &text)?;
        assert!(rt;
            report.as_slice().ends_with(expected.as_bytes()),
            "{times} times {piece:?}, then {end:?}"
        );
    }
    Ok(())
}

// How many names come first, and what follows; then the last line of the report. The lists of a report have 16 names.
const NAMED: [(usize, &str, &str); 10] = [
    (16, "", "\n15 name 15 a15\n"),
    (16, "a0 a15", "\n17 name 15 a15\n"),
    (16, "(lambda (a7) a8)", "\n17 name 8 a8\n"),
    (17, "", "text refused 24 54\n"),
    (16, "b", "text refused 24 54\n"),
    // a binder's name
    (16, "(lambda (b) b)", "text refused 24 63\n"),
    (16, "(lambda (a3) b)", "text refused 24 67\n"),
    (15, "(lambda (b) b) c", "text refused 24 65\n"),
    (16, "(lambda (X) b)", "text refused 22 63\n"),
    (16, "(lambda b b)", "text refused 22 62\n"),
];

#[test]
fn a_17th_name_is_refused(rt: HostRuntime) -> Result<(), Fail> {
    for (count, end, expected) in NAMED {
        let text = numbered(rt.alloc(), "a", count, end)?;
        let report = report_on(rt.alloc(), &text)?;
        assert!(rt;
            report.as_slice().ends_with(expected.as_bytes()),
            "{count} names, then {end:?}"
        );
    }
    Ok(())
}

// How many places, names, holes and leaves there are.
type Sizes = (usize, usize, usize, usize);

// The four counts, or the number of the refusal and the offset.
type Answer = Result<Sizes, (u32, usize)>;

// How a text is read into lists of these sizes.
fn answer(heap: Global, text: &[u8], sizes: Sizes) -> Result<Answer, AllocError> {
    let mut places: Vec<Place> = iter::repeat_n(Place::nil(), sizes.0).collect(heap)?;
    let mut names: Vec<u64> = iter::repeat_n(0, sizes.1).collect(heap)?;
    let mut holes: Vec<u64> = iter::repeat_n(0, sizes.2).collect(heap)?;
    let mut leaves: Vec<Symbol> = iter::repeat_n(Symbol { packed: 0 }, sizes.3).collect(heap)?;
    let read = read_recipes(text, &mut places, &mut names, &mut holes, &mut leaves);
    Ok(match read {
        Ok(counts) => Ok((counts.places, counts.names, counts.holes, counts.leaves)),
        Err(refusal) => Err((refusal.number(), refusal.carried().0)),
    })
}

// The front of words with numbers, how many there are, the sizes of the lists, and how they are read.
const COUNTED: [(&str, usize, Sizes, Answer); 8] = [
    ("X", 64, (65, 0, 64, 0), Ok((64, 0, 64, 0))),
    ("X", 65, (65, 0, 64, 0), Err((24, 246))),
    ("'a", 64, (65, 0, 0, 64), Ok((64, 0, 0, 64))),
    ("'a", 65, (65, 0, 0, 64), Err((24, 310))),
    ("a", 65, (65, 65, 0, 0), Ok((65, 65, 0, 0))),
    ("a", 65, (65, 64, 0, 0), Err((24, 246))),
    ("a", 65, (64, 65, 0, 0), Err((24, 246))),
    ("a", 300, (300, 300, 0, 0), Ok((300, 300, 0, 0))),
];

#[test]
fn words_are_bounded_by_their_lists(rt: HostRuntime) -> Result<(), Fail> {
    for (front, count, sizes, expected) in COUNTED {
        let text = numbered(rt.alloc(), front, count, "")?;
        let read = answer(rt.alloc(), &text, sizes)?;
        assert_eq!(rt; read, expected, "{count} words {front:?}");
    }
    Ok(())
}

// A text, the sizes of the lists, and how it is read.
const SHORT: [(&str, Sizes, Answer); 14] = [
    ("", (0, 0, 0, 0), Ok((0, 0, 0, 0))),
    (" ", (0, 0, 0, 0), Ok((0, 0, 0, 0))),
    ("", (4, 4, 4, 4), Ok((0, 0, 0, 0))),
    ("'()", (1, 0, 0, 0), Ok((1, 0, 0, 0))),
    ("'()", (0, 1, 1, 1), Err((24, 0))),
    ("a", (1, 0, 1, 1), Err((24, 0))),
    ("X", (1, 1, 0, 1), Err((24, 0))),
    ("'a", (1, 1, 1, 0), Err((24, 0))),
    ("24", (1, 1, 1, 0), Err((24, 0))),
    ("X X X", (3, 0, 1, 0), Ok((3, 0, 1, 0))),
    ("(lambda (a) a)", (2, 1, 0, 0), Ok((2, 1, 0, 0))),
    ("(lambda (a) a)", (2, 0, 0, 0), Err((24, 9))),
    ("(lambda (a) a)", (0, 0, 0, 0), Err((24, 0))),
    ("('a (X 'b))", (5, 0, 1, 2), Ok((5, 0, 1, 2))),
];

#[test]
fn each_list_is_as_long_as_it_has_to_be(rt: HostRuntime) -> Result<(), Fail> {
    for (text, sizes, expected) in SHORT {
        let read = answer(rt.alloc(), text.as_bytes(), sizes)?;
        assert_eq!(rt; read, expected, "{}", text);
    }
    Ok(())
}

// A piece, how often it comes, the middle, and what closes each piece; then how that is read into lists of 300 places and 2 names.
const NESTED: [(&str, usize, &str, &str, Answer); 15] = [
    ("(a ", 128, "b", ")", Ok((257, 2, 0, 0))),
    ("(a ", 128, "'()", ")", Ok((257, 1, 0, 0))),
    ("(", 128, "a", " b)", Ok((257, 2, 0, 0))),
    ("(lambda (a) ", 65, "a", ")", Ok((66, 1, 0, 0))),
    ("(lambda (a) ", 128, "a", ")", Ok((129, 1, 0, 0))),
    // the 129th parenthesis
    ("(a ", 128, "(a b)", ")", Err((24, 384))),
    ("(a ", 128, "(", "", Err((24, 384))),
    ("(", 129, "a", " b)", Err((24, 128))),
    ("(", 300, "", "", Err((24, 128))),
    ("(lambda (a) ", 129, "a", ")", Err((24, 1536))),
    ("(a ", 128, "(lambda (a) b)", ")", Err((24, 384))),
    // where nothing can stand, that is said, not that lists are nested too deep
    ("(a ", 128, ")", "", Err((22, 384))),
    ("(a ", 127, "(a b (", "", Err((22, 386))),
    ("(a ", 128, "'(", "", Err((21, 384))),
    ("(a ", 128, "", "", Err((23, 384))),
];

#[test]
fn lists_nest_128_deep(rt: HostRuntime) -> Result<(), Fail> {
    for (front, times, middle, back, expected) in NESTED {
        let text = nested(rt.alloc(), front, times, middle, back)?;
        let read = answer(rt.alloc(), &text, (300, 2, 0, 0))?;
        assert_eq!(rt; read, expected, "{times} times {front:?}, then {middle:?}");
    }
    Ok(())
}
