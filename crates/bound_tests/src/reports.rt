// Whole reports: short inputs, and inputs at the limit.
use rate_report::{LIMIT, report_on};
use std::alloc::{AllocError, Global};
use std::test::Fail;

// An input and the report on it.
const REPORTS: [(&str, &str); 7] = [
    ("", "words 0, rates 0, different rates 0\n"),
    (" \t\r\n", "words 0, rates 0, different rates 0\n"),
    ("24", "0 24 rate 0\nwords 1, rates 1, different rates 1\n"),
    (
        "24 48/2",
        "0 24 rate 0\n1 48/2 rate 0\nwords 2, rates 2, different rates 1\n",
    ),
    (
        "x\n1/0\ty",
        "0 x no rate\n1 1/0 no rate\n2 y no rate\nwords 3, rates 0, different rates 0\n",
    ),
    (
        "24\u{b}25 24\u{c} 0000000000000000000024 2é",
        "0 24\u{b}25 no rate\n1 24\u{c} no rate\n2 0000000000000000000024 no rate\n3 2é no rate\nwords 4, rates 0, different rates 0\n",
    ),
    (
        "\r\n29.97\t30000/1001 (a) 2997/100 ",
        "0 29.97 rate 0\n1 30000/1001 rate 1\n2 (a) no rate\n3 2997/100 rate 0\nwords 4, rates 3, different rates 2\n",
    ),
];

#[test]
fn short_inputs_are_reported_word_by_word(rt: HostRuntime) -> Result<(), Fail> {
    for (input, expected) in REPORTS {
        let report = report_on(rt.alloc(), input.as_bytes())?;
        assert!(rt; report.as_slice() == expected.as_bytes(), "{}", input);
    }
    Ok(())
}

// The pattern again and again, `length` bytes of it, and then the end.
fn repeated(
    heap: Global,
    pattern: &[u8],
    length: usize,
    end: &[u8],
) -> Result<Vec<u8>, AllocError> {
    let again = pattern.iter().copied().cycle().take(length);
    again.chain(end.iter().copied()).collect(heap)
}

// A pattern, how many bytes of it there are, and what follows them; then the last lines of the report on that.
const ENDS: [(&str, usize, &str, &str); 9] = [
    // below the limit, at the limit
    (
        "24 ",
        LIMIT - 1,
        "",
        "21844 24 rate 0\nwords 21845, rates 21845, different rates 1\n",
    ),
    (
        "24 ",
        LIMIT,
        "",
        "21845 2 rate 21845\nwords 21846, rates 21846, different rates 2\n",
    ),
    // a word goes on past the limit
    (
        "24 ",
        LIMIT,
        "4",
        "21844 24 rate 0\ntoo much input: only the whole words of the first 65536 bytes are listed\nwords 21845, rates 21845, different rates 1\n",
    ),
    (
        "24 ",
        LIMIT,
        "4 25 26",
        "21844 24 rate 0\ntoo much input: only the whole words of the first 65536 bytes are listed\nwords 21845, rates 21845, different rates 1\n",
    ),
    // a word ends right at the limit
    (
        " 4",
        LIMIT,
        "\n5",
        "32767 4 rate 0\ntoo much input: only the whole words of the first 65536 bytes are listed\nwords 32768, rates 32768, different rates 1\n",
    ),
    // the last byte within the limit is white space
    (
        "4 ",
        LIMIT,
        "5",
        "32767 4 rate 0\ntoo much input: only the whole words of the first 65536 bytes are listed\nwords 32768, rates 32768, different rates 1\n",
    ),
    // one word up to the limit, and one past it
    (
        "4",
        LIMIT,
        "",
        "444 no rate\nwords 1, rates 0, different rates 0\n",
    ),
    (
        "4",
        LIMIT,
        " ",
        "444 no rate\ntoo much input: only the whole words of the first 65536 bytes are listed\nwords 1, rates 0, different rates 0\n",
    ),
    (
        "4",
        LIMIT,
        "4",
        "too much input: only the whole words of the first 65536 bytes are listed\nwords 0, rates 0, different rates 0\n",
    ),
];

#[test]
fn of_too_much_input_the_whole_words_are_listed(rt: HostRuntime) -> Result<(), Fail> {
    for (pattern, length, end, expected) in ENDS {
        let input = repeated(rt.alloc(), pattern.as_bytes(), length, end.as_bytes())?;
        let report = report_on(rt.alloc(), input.as_slice())?;
        assert!(rt;
            report.as_slice().ends_with(expected.as_bytes()),
            "{length} bytes of {pattern:?}, then {end:?}"
        );
    }
    Ok(())
}
