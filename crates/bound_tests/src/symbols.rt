// Symbols: which words spell them, when two are the same, and their numbers.
use leaves::Symbol;
use recipe::{Leaf, leaf_number};
use std::test::Fail;

// Each word with the number that packs its name, if it spells a symbol.
const SYMBOLS: [(&str, Option<u64>); 33] = [
    ("'a", Some(0x6100_0000_0000_0000)),
    ("'z", Some(0x7a00_0000_0000_0000)),
    ("'lift", Some(0x6c69_6674_0000_0000)),
    ("'a-1", Some(0x612d_3100_0000_0000)),
    ("'a--", Some(0x612d_2d00_0000_0000)),
    ("'abcdefgh", Some(0x6162_6364_6566_6768)),
    ("'a1234567", Some(0x6131_3233_3435_3637)),
    ("'abcdefghi", None),
    ("'a12345678", None),
    ("", None),
    ("'", None),
    ("''", None),
    ("''a", None),
    ("a", None),
    ("lift", None),
    ("'Lift", None),
    ("'lifT", None),
    ("'1a", None),
    ("'-a", None),
    ("'a_b", None),
    ("'a.b", None),
    ("'é", None),
    ("'a0", Some(0x6130_0000_0000_0000)),
    ("'a9", Some(0x6139_0000_0000_0000)),
    ("'az", Some(0x617a_0000_0000_0000)),
    ("'a/", None),
    ("'a:", None),
    ("'a,", None),
    ("'a`", None),
    ("'a{", None),
    ("'`", None),
    ("'{", None),
    ("'a ", None),
];

#[test]
fn symbols_are_read_as_spelled(rt: HostRuntime) {
    for (word, expected) in SYMBOLS {
        let read = Symbol::read(word.as_bytes()).map(|symbol| symbol.packed);
        assert_eq!(rt; read, expected, "{}", word);
    }
}

#[test]
fn symbols_are_numbered_by_the_first_same(rt: HostRuntime) -> Result<(), Fail> {
    let lift = Symbol::read(b"'lift").ok_or("'lift is no symbol")?;
    let gain = Symbol::read(b"'gain").ok_or("'gain is no symbol")?;
    let gains = Symbol::read(b"'gains").ok_or("'gains is no symbol")?;
    let symbols = [lift, gain, lift];
    assert!(rt; lift.same(&lift) && !lift.same(&gain) && !gain.same(&gains));
    assert_eq!(rt; leaf_number(&symbols, &lift), Some(0));
    assert_eq!(rt; leaf_number(&symbols, &gain), Some(1));
    assert_eq!(rt; leaf_number(&symbols, &gains), None);
    Ok(())
}

#[test]
fn the_longest_word_has_9_bytes(rt: HostRuntime) {
    assert_eq!(rt; (<Symbol as Leaf>::LONGEST, Symbol::longest_word()), (9, 9));
}

#[test]
fn symbols_are_printed_as_spelled(rt: HostRuntime) -> Result<(), Fail> {
    for (word, _) in SYMBOLS {
        if let Some(symbol) = Symbol::read(word.as_bytes()) {
            let printed = format!(in rt.alloc(); "{symbol}")?;
            assert_eq!(rt; printed.as_str(), word);
        }
    }
    Ok(())
}
