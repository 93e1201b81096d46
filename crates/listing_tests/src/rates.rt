// Texts with rates for leaves, and what comes of them.
use crate::listed::first_wrong;
use leaves::Rate;
use std::test::Fail;

const TEXTS: [(&str, &str); 13] = [
    ("24 48/2", "tell 0 1 accepted\n"),
    ("29.97 30000/1001", "tell 0 1 refused 14 0 1\n"),
    ("007 7", "tell 0 1 accepted\n"),
    ("0/5 0.0", "tell 0 1 accepted\n"),
    ("1/0", "text refused 25 0\n"),
    ("2147483647 2147483648", "text refused 25 11\n"),
    ("2147483.647 2147483.648", "text refused 25 12\n"),
    ("00000000007 7", "text refused 25 0\n"),
    ("5.", "text refused 25 0\n"),
    ("1/2/3", "text refused 25 0\n"),
    (".5", "text refused 21 0\n"),
    (
        "23.976 23976/1000 X 25",
        "tell 0 1 accepted\ntell 2 3 accepted\nX leaf 2\n",
    ),
    (
        "X 24 X 48/2 X 25/1",
        "tell 0 1 accepted\ntell 2 3 accepted\ntell 4 5 refused 14 1 5\nX leaf 0\n",
    ),
];

#[test]
fn texts_with_rates_are_listed(rt: HostRuntime) -> Result<(), Fail> {
    let zero = Rate {
        numerator: 0,
        denominator: 1,
    };
    let mut leaves = [zero; 64];
    assert_eq!(rt; first_wrong(&TEXTS, &mut leaves), None);
    Ok(())
}
