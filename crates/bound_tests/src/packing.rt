// Packing, and how packed spellings are printed.
use recipe::{PackedSpelling, pack};
use std::test::Fail;

// Bytes, and the number that packs them, if there are few enough.
const PACKED: [(&str, Option<u64>); 9] = [
    ("", Some(0)),
    ("a", Some(0x6100_0000_0000_0000)),
    ("ab", Some(0x6162_0000_0000_0000)),
    ("abcdefg", Some(0x6162_6364_6566_6700)),
    ("abcdefgh", Some(0x6162_6364_6566_6768)),
    ("abcdefghi", None),
    ("\u{7f}é", Some(0x7fc3_a900_0000_0000)),
    ("\0", Some(0)),
    ("\0a", Some(0x0061_0000_0000_0000)),
];

#[test]
fn up_to_eight_bytes_are_packed_first_byte_highest(rt: HostRuntime) {
    for (bytes, expected) in PACKED {
        assert_eq!(rt; pack(bytes.as_bytes()), expected, "{}", bytes);
    }
}

#[test]
fn the_largest_bytes_fill_the_number(rt: HostRuntime) {
    assert_eq!(rt; pack(&[0xff; 8]), Some(u64::MAX));
}

// Numbers, and how the spellings that they pack are printed; bytes that are no UTF-8 are printed as the number.
const PRINTED: [(u64, &str); 12] = [
    (0, ""),
    (0x6100_0000_0000_0000, "a"),
    (0x6c69_6674_0000_0000, "lift"),
    (0x6162_6364_6566_6768, "abcdefgh"),
    (0x7fc3_a900_0000_0000, "\u{7f}é"),
    (0x0061_0000_0000_0000, ""),
    (0x6100_6200_0000_0000, "a"),
    (0x6100_ff00_0000_0000, "a"),
    (1, ""),
    (0x61c3_0000_0000_0000, "0x61c3000000000000"),
    (0x8000_0000_0000_0000, "0x8000000000000000"),
    (u64::MAX, "0xffffffffffffffff"),
];

#[test]
fn packed_spellings_are_printed_as_spelled(rt: HostRuntime) -> Result<(), Fail> {
    for (packed, expected) in PRINTED {
        let spelling = PackedSpelling(packed);
        let printed = format!(in rt.alloc(); "{spelling}")?;
        assert_eq!(rt; printed.as_str(), expected);
    }
    Ok(())
}
