// The numbers of kinds, what is said of a number that is none, and the records of places.
use recipe::{Kind, Place, UnknownKind};
use std::test::Fail;

const KINDS: [(u32, Result<Kind, UnknownKind>); 8] = [
    (0, Ok(Kind::Nil)),
    (1, Ok(Kind::Leaf)),
    (2, Ok(Kind::Name)),
    (3, Ok(Kind::Hole)),
    (4, Ok(Kind::Bind)),
    (5, Ok(Kind::Call)),
    (6, Err(UnknownKind(6))),
    (u32::MAX, Err(UnknownKind(u32::MAX))),
];

#[test]
fn each_kind_has_its_number(rt: HostRuntime) {
    for (number, expected) in KINDS {
        assert_eq!(rt; Kind::try_from(number), expected);
        if let Ok(kind) = expected {
            assert_eq!(rt; kind as u32, number);
        }
    }
}

#[test]
fn an_unknown_kind_is_named(rt: HostRuntime) -> Result<(), Fail> {
    let printed = format!(in rt.alloc(); "{}", UnknownKind(6))?;
    assert_eq!(rt; printed.as_str(), "no kind has the number 6");
    Ok(())
}

#[test]
fn each_place_has_its_record(rt: HostRuntime) {
    let places = [
        (Place::nil(), (0, 0, 0)),
        (Place::leaf(7), (1, 7, 0)),
        (Place::name(7), (2, 7, 0)),
        (Place::hole(7), (3, 7, 0)),
        (Place::bind(7, 8), (4, 7, 8)),
        (Place::call(7, 8), (5, 7, 8)),
    ];
    for (place, (kind, a, b)) in places {
        assert_eq!(rt; place, Place { kind, a, b });
    }
}
