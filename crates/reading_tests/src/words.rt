// Words and their classes: a text of one word, or a few, and the report on it.
use crate::reports::first_misread;
use read_report::report_on;
use std::test::Fail;

// Names and holes: a letter, and then up to seven letters of either case, digits or hyphens.
const NAMES_AND_HOLES: [(&str, &str); 29] = [
    ("a", "0 name 0 a\n"),
    ("z", "0 name 0 z\n"),
    ("A", "0 hole 0 A\n"),
    ("Z", "0 hole 0 Z\n"),
    ("abcdefgh", "0 name 0 abcdefgh\n"),
    ("Abcdefgh", "0 hole 0 Abcdefgh\n"),
    ("abcdefghi", "text refused 21 0\n"),
    ("Abcdefghi", "text refused 21 0\n"),
    ("aBC", "0 name 0 aBC\n"),
    ("XyZ", "0 hole 0 XyZ\n"),
    ("a0-9", "0 name 0 a0-9\n"),
    ("X0-9", "0 hole 0 X0-9\n"),
    ("a--", "0 name 0 a--\n"),
    ("aB ab", "0 name 0 aB\n1 name 1 ab\n"),
    (
        "a A a A",
        "0 name 0 a\n1 hole 0 A\n2 name 0 a\n3 hole 0 A\n",
    ),
    ("lambdas", "0 name 0 lambdas\n"),
    ("lambd", "0 name 0 lambd\n"),
    ("Lambda", "0 hole 0 Lambda\n"),
    ("LAMBDA", "0 hole 0 LAMBDA\n"),
    ("a_b", "text refused 21 0\n"),
    ("a.b", "text refused 21 0\n"),
    ("a/", "text refused 21 0\n"),
    ("a:", "text refused 21 0\n"),
    ("a@", "text refused 21 0\n"),
    ("a[", "text refused 21 0\n"),
    ("a`", "text refused 21 0\n"),
    ("a{", "text refused 21 0\n"),
    ("X'", "text refused 21 0\n"),
    ("a'b", "text refused 21 0\n"),
];

#[test]
fn names_and_holes_are_letters_digits_and_hyphens(rt: HostRuntime) -> Result<(), Fail> {
    assert_eq!(rt; first_misread(rt.alloc(), &NAMES_AND_HOLES)?, None);
    Ok(())
}

// Leaf words: an apostrophe or a digit, and whatever follows it; the kind decides at the end.
const LEAF_WORDS: [(&str, &str); 21] = [
    ("'a", "0 leaf 0 'a\n"),
    ("'lambda", "0 leaf 0 'lambda\n"),
    ("'abcdefgh", "0 leaf 0 'abcdefgh\n"),
    ("'a-1", "0 leaf 0 'a-1\n"),
    ("'abcdefghi", "text refused 25 0\n"),
    ("'abcdefgh 'abcdefghi", "text refused 25 10\n"),
    ("'Lift", "text refused 25 0\n"),
    (" 'Lift", "text refused 25 1\n"),
    ("'a'b", "text refused 25 0\n"),
    ("'é", "text refused 25 0\n"),
    ("'", "text refused 25 0\n"),
    ("''", "text refused 25 0\n"),
    ("''a", "text refused 25 0\n"),
    ("24", "text refused 25 0\n"),
    ("0", "text refused 25 0\n"),
    ("9_", "text refused 25 0\n"),
    ("1/0", "text refused 25 0\n"),
    ("'lift 'Gain 'Rate", "text refused 25 6\n"),
    ("(a ')", "text refused 25 3\n"),
    ("(lambda (a) 'A)", "text refused 25 12\n"),
    ("'lift 24", "text refused 25 6\n"),
];

#[test]
fn leaf_words_are_read_by_the_kind(rt: HostRuntime) -> Result<(), Fail> {
    assert_eq!(rt; first_misread(rt.alloc(), &LEAF_WORDS)?, None);
    Ok(())
}

// White space is space, tab, line feed and carriage return; every other byte but parentheses is of a word. Offsets count bytes.
const WHITE_SPACE: [(&str, &str); 16] = [
    ("", ""),
    (" ", ""),
    (" \t\r\n", ""),
    ("\n\ta\r b ", "0 name 0 a\n1 name 1 b\n"),
    (
        "a\tb\nc\rd",
        "0 name 0 a\n1 name 1 b\n2 name 2 c\n3 name 3 d\n",
    ),
    ("a\u{b}b", "text refused 21 0\n"),
    ("a \u{c}", "text refused 21 2\n"),
    ("\u{a0}", "text refused 21 0\n"),
    ("\0", "text refused 21 0\n"),
    ("a\0", "text refused 21 0\n"),
    ("\u{7f}", "text refused 21 0\n"),
    ("é", "text refused 21 0\n"),
    ("aé", "text refused 21 0\n"),
    ("'é )", "text refused 22 4\n"),
    ("'é é", "text refused 21 4\n"),
    ("\r\n\r\n)", "text refused 22 4\n"),
];

#[test]
fn white_space_is_four_bytes(rt: HostRuntime) -> Result<(), Fail> {
    assert_eq!(rt; first_misread(rt.alloc(), &WHITE_SPACE)?, None);
    Ok(())
}

#[test]
fn bytes_that_are_no_text_are_of_words(rt: HostRuntime) -> Result<(), Fail> {
    let report = report_on(rt.alloc(), b"a \xff")?;
    assert!(rt; report.as_slice() == b"text refused 21 2\n".as_slice());
    let report = report_on(rt.alloc(), b"'\xff\xfe )")?;
    assert!(rt; report.as_slice() == b"text refused 22 4\n".as_slice());
    Ok(())
}
