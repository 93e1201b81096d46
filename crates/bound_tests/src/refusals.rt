// The number of each refusal, what it carries, and how it is printed.
use recipe::Refusal;
use std::test::Fail;

const REFUSALS: [(Refusal, u32, usize, Option<usize>); 20] = [
    (Refusal::TooLarge, 1, 0, None),
    (Refusal::UnknownKind { place: 3 }, 2, 3, None),
    (Refusal::BadNumber { place: 4 }, 3, 4, None),
    (Refusal::BadPart { place: 5 }, 4, 5, None),
    (Refusal::HeldTwice { place: 6 }, 5, 6, None),
    (Refusal::TooDeep { place: 511 }, 6, 511, None),
    (Refusal::MemoryTooShort, 7, 0, None),
    (Refusal::NoSuchPlace { place: 8 }, 11, 8, None),
    (
        Refusal::UnequalDepths {
            first: 9,
            second: 2,
        },
        12,
        9,
        Some(2),
    ),
    (Refusal::TooManyTells, 13, 0, None),
    (
        Refusal::Clash {
            place: 1,
            partner: 7,
        },
        14,
        1,
        Some(7),
    ),
    (Refusal::Cyclic { place: 10 }, 15, 10, None),
    (Refusal::NamesDisagree { place: 11 }, 16, 11, None),
    (Refusal::UnknownStep { index: 12 }, 17, 12, None),
    (Refusal::HoleInside { place: 13 }, 18, 13, None),
    (Refusal::UnknownWord { offset: 14 }, 21, 14, None),
    (Refusal::Misplaced { offset: 15 }, 22, 15, None),
    (Refusal::Unfinished { offset: 16 }, 23, 16, None),
    (Refusal::NoRoom { offset: 4096 }, 24, 4096, None),
    (Refusal::UnreadLeaf { offset: 17 }, 25, 17, None),
];

#[test]
fn each_refusal_has_its_number(rt: HostRuntime) {
    for (refusal, number, first, second) in REFUSALS {
        assert_eq!(rt;
            (refusal.number(), refusal.carried()),
            (number, (first, second)),
            "{}",
            number
        );
    }
}

// Refusals as they are printed: with one number carried, with two, and with none, which is printed as 0.
const PRINTED: [(Refusal, &str); 4] = [
    (Refusal::NamesDisagree { place: 5 }, "refused 16 5"),
    (
        Refusal::Clash {
            place: 4,
            partner: 5,
        },
        "refused 14 4 5",
    ),
    (
        Refusal::UnequalDepths {
            first: 9,
            second: 2,
        },
        "refused 12 9 2",
    ),
    (Refusal::TooManyTells, "refused 13 0"),
];

#[test]
fn a_refusal_is_printed_with_what_it_carries(rt: HostRuntime) -> Result<(), Fail> {
    for (refusal, expected) in PRINTED {
        let printed = format!(in rt.alloc(); "{refusal}")?;
        assert_eq!(rt; printed.as_str(), expected);
    }
    Ok(())
}
