// Rates: which words spell them, when two are the same, and their numbers.
use leaves::Rate;
use recipe::{Leaf, leaf_number};
use std::test::Fail;

// Each word with the numerator and the denominator that it spells, if it spells a rate.
const RATES: [(&str, Option<(u32, u32)>); 56] = [
    ("24", Some((24, 1))),
    ("0", Some((0, 1))),
    ("007", Some((7, 1))),
    ("0000000007", Some((7, 1))),
    ("00000000007", None),
    ("2147483647", Some((2_147_483_647, 1))),
    ("2147483648", None),
    ("9999999999", None),
    ("48/2", Some((48, 2))),
    ("24000/1001", Some((24_000, 1001))),
    ("0/5", Some((0, 5))),
    ("1/0", None),
    ("0/0", None),
    ("1/2147483647", Some((1, 2_147_483_647))),
    ("1/2147483648", None),
    (
        "2147483647/2147483647",
        Some((2_147_483_647, 2_147_483_647)),
    ),
    ("0000000001/0000000002", Some((1, 2))),
    ("00000000001/2", None),
    ("1/00000000002", None),
    ("00000000001/0000000002", None),
    ("23.976", Some((23_976, 1000))),
    ("0.0", Some((0, 10))),
    ("1.50", Some((150, 100))),
    ("0.000001", Some((1, 1_000_000))),
    ("0.0000001", None),
    ("2147483.647", Some((2_147_483_647, 1000))),
    ("2147483.648", None),
    ("0000000000.000001", Some((1, 1_000_000))),
    ("00000000000.1", None),
    ("", None),
    ("5.", None),
    (".5", None),
    ("/2", None),
    ("2/", None),
    ("1/2/3", None),
    ("1.2.3", None),
    ("1/2.5", None),
    ("1.5/2", None),
    ("-5", None),
    ("25fps", None),
    ("24 ", None),
    ("'24", None),
    ("2147483648/1", None),
    ("1/0000000000", None),
    ("0.000000", Some((0, 1_000_000))),
    ("2147.483647", Some((2_147_483_647, 1_000_000))),
    ("2147.483648", None),
    ("214748364.7", Some((2_147_483_647, 10))),
    ("214748364.8", None),
    ("2147483647.0", None),
    ("1:2", None),
    ("/", None),
    (".", None),
    ("+5", None),
    ("1,5", None),
    ("٣", None),
];

#[test]
fn rates_are_read_as_spelled(rt: HostRuntime) {
    for (word, expected) in RATES {
        let read = Rate::read(word.as_bytes()).map(|rate| (rate.numerator, rate.denominator));
        assert_eq!(rt; read, expected, "{}", word);
    }
}

// Two rates, each as numerator and denominator, and whether they are the same.
const PAIRS: [((u32, u32), (u32, u32), bool); 16] = [
    ((24, 1), (48, 2), true),
    ((23_976, 1000), (24_000, 1001), false),
    ((2997, 100), (30_000, 1001), false),
    ((0, 5), (0, 10), true),
    ((1, 3), (333_333, 1_000_000), false),
    ((2_147_483_647, 2_147_483_647), (1, 1), true),
    ((u32::MAX, u32::MAX), (1, 1), true),
    ((u32::MAX, 1), (u32::MAX, 2), false),
    ((1, 0), (1, 0), true),
    ((0, 0), (0, 0), true),
    ((1, 0), (2, 0), false),
    ((1, 0), (1, 1), false),
    ((0, 0), (0, 5), false),
    ((0, 5), (0, 0), false),
    ((65_536, 1), (0, 65_536), false),
    (
        (u32::MAX, u32::MAX - 1),
        (u32::MAX - 1, u32::MAX - 2),
        false,
    ),
];

fn rate((numerator, denominator): (u32, u32)) -> Rate {
    Rate {
        numerator,
        denominator,
    }
}

#[test]
fn rates_are_the_same_by_cross_products(rt: HostRuntime) {
    for (left, right, expected) in PAIRS {
        let (n, d) = left;
        let (m, e) = right;
        assert_eq!(rt;
            rate(left).same(&rate(right)),
            expected,
            "{n}/{d} and {m}/{e}"
        );
        assert_eq!(rt;
            rate(right).same(&rate(left)),
            expected,
            "{m}/{e} and {n}/{d}"
        );
    }
}

#[test]
fn rates_are_numbered_by_the_first_same(rt: HostRuntime) {
    let rates = [rate((25, 1)), rate((24, 1)), rate((48, 2)), rate((1, 0))];
    assert_eq!(rt; leaf_number(&rates, &rate((24, 1))), Some(1));
    assert_eq!(rt; leaf_number(&rates, &rate((72, 3))), Some(1));
    assert_eq!(rt; leaf_number(&rates, &rate((50, 2))), Some(0));
    assert_eq!(rt; leaf_number(&rates, &rate((1, 0))), Some(3));
    assert_eq!(rt; leaf_number(&rates, &rate((30, 1))), None);
    assert_eq!(rt; leaf_number(&rates[0..0], &rate((25, 1))), None);
}

#[test]
fn the_longest_word_has_21_bytes(rt: HostRuntime) {
    assert_eq!(rt; (<Rate as Leaf>::LONGEST, Rate::longest_word()), (21, 21));
}

// Numerator and denominator, and how the rate is printed.
const PRINTED: [((u32, u32), &str); 6] = [
    ((24, 1), "24/1"),
    ((150, 100), "150/100"),
    ((0, 10), "0/10"),
    ((5, 0), "5/0"),
    ((2_147_483_647, 2_147_483_647), "2147483647/2147483647"),
    ((u32::MAX, u32::MAX), "4294967295/4294967295"),
];

#[test]
fn rates_are_printed_as_fractions(rt: HostRuntime) -> Result<(), Fail> {
    for (numbers, expected) in PRINTED {
        let rate = rate(numbers);
        let printed = format!(in rt.alloc(); "{rate}")?;
        assert_eq!(rt; printed.as_str(), expected);
    }
    Ok(())
}
