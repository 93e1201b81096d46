// What a reading leaves in its lists: all of them, over what stood there before.
use leaves::Symbol;
use notation::{Counts, read_recipes};
use recipe::{Place, Refusal};

// Lists of a few entries.
#[derive(Clone, Copy, Debug, PartialEq, Eq)]
struct Lists {
    places: [Place; 6],
    names: [u64; 3],
    holes: [u64; 3],
    leaves: [Symbol; 3],
}

// What stands in the lists before.
fn before() -> Lists {
    let unknown = Place {
        kind: 9,
        a: 9,
        b: 9,
    };
    Lists {
        places: [unknown; 6],
        names: [9; 3],
        holes: [9; 3],
        leaves: [Symbol { packed: 9 }; 3],
    }
}

// How a text is read, and the lists after that.
fn read(text: &[u8]) -> (Result<Counts, Refusal>, Lists) {
    let mut lists = before();
    let answer = read_recipes(
        text,
        &mut lists.places,
        &mut lists.names,
        &mut lists.holes,
        &mut lists.leaves,
    );
    (answer, lists)
}

#[test]
fn a_text_that_is_read_fills_the_lists(rt: HostRuntime) {
    let counts = Counts {
        places: 4,
        names: 1,
        holes: 1,
        leaves: 1,
    };
    let before = Symbol { packed: 9 };
    let lift = Symbol {
        packed: 0x6c69_6674_0000_0000,
    };
    let lists = Lists {
        places: [
            Place::bind(0, 1),
            Place::call(2, 3),
            Place::hole(0),
            Place::leaf(0),
            Place::nil(),
            Place::nil(),
        ],
        names: [0x6100_0000_0000_0000, 0, 0],
        holes: [0x5832_0000_0000_0000, 0, 0],
        leaves: [lift, before, before],
    };
    assert_eq!(rt; read(b"(lambda (a) (X2 'lift))"), (Ok(counts), lists));
}

#[test]
fn an_empty_text_leaves_zeros_and_the_leaves(rt: HostRuntime) {
    let counts = Counts {
        places: 0,
        names: 0,
        holes: 0,
        leaves: 0,
    };
    assert_eq!(rt; read(b""), (Ok(counts), zeroed()));
}

// The lists with zeros, but for the leaves, which are as before.
fn zeroed() -> Lists {
    let leaves = before().leaves;
    Lists {
        places: [Place::nil(); 6],
        names: [0; 3],
        holes: [0; 3],
        leaves,
    }
}

const REFUSED: [(&str, Refusal); 10] = [
    ("'lift a_b", Refusal::UnknownWord { offset: 6 }),
    ("'lift )", Refusal::Misplaced { offset: 6 }),
    ("'lift (X", Refusal::Unfinished { offset: 8 }),
    ("'lift a b c d", Refusal::NoRoom { offset: 12 }),
    ("'lift X Y Z W", Refusal::NoRoom { offset: 12 }),
    ("'lift (a (a (a", Refusal::NoRoom { offset: 13 }),
    ("'a 'b 'c 'd", Refusal::NoRoom { offset: 9 }),
    ("'lift 'Gain", Refusal::UnreadLeaf { offset: 6 }),
    ("(a (X 'lift)) 24", Refusal::UnreadLeaf { offset: 14 }),
    ("24", Refusal::UnreadLeaf { offset: 0 }),
];

#[test]
fn a_text_that_is_refused_leaves_zeros_and_the_leaves(rt: HostRuntime) {
    for (text, refusal) in REFUSED {
        assert_eq!(rt; read(text.as_bytes()), (Err(refusal), zeroed()), "{}", text);
    }
}
