// Texts with rates for leaves: what is read of them, and where they are refused.
use leaves::Rate;
use notation::read_recipes;
use recipe::Place;

// Numerator and denominator.
type Numbers = (u32, u32);

// What stood in the list of leaves before.
const BEFORE: Numbers = (7, 9);

// How many places and leaves were read, or the number of the refusal and the offset.
type Answer = Result<(usize, usize), (u32, usize)>;

// How a text is read into lists of 8 entries, and the first two of the leaves after that.
fn read(text: &[u8]) -> (Answer, [Numbers; 2]) {
    let mut places = [Place::nil(); 8];
    let mut names = [0; 8];
    let mut holes = [0; 8];
    let mut leaves = [Rate {
        numerator: BEFORE.0,
        denominator: BEFORE.1,
    }; 8];
    let read = read_recipes(text, &mut places, &mut names, &mut holes, &mut leaves);
    let answer = match read {
        Ok(counts) => Ok((counts.places, counts.leaves)),
        Err(refusal) => Err((refusal.number(), refusal.carried().0)),
    };
    let [first, second, ..] = leaves;
    (
        answer,
        [
            (first.numerator, first.denominator),
            (second.numerator, second.denominator),
        ],
    )
}

// A text, how it is read, and the first two leaves after that.
const TEXTS: [(&str, Answer, [Numbers; 2]); 32] = [
    ("24 48/2", Ok((2, 2)), [(24, 1), (48, 2)]),
    (
        "29.97 30000/1001",
        Ok((2, 2)),
        [(2997, 100), (30_000, 1001)],
    ),
    ("007 7", Ok((2, 2)), [(7, 1), (7, 1)]),
    ("0/5 0.0", Ok((2, 2)), [(0, 5), (0, 10)]),
    (
        "23.976 23976/1000 X 25",
        Ok((4, 3)),
        [(23_976, 1000), (23_976, 1000)],
    ),
    ("X 24 X 48/2 X 25/1", Ok((6, 3)), [(24, 1), (48, 2)]),
    ("2147483647", Ok((1, 1)), [(2_147_483_647, 1), BEFORE]),
    ("0000000007/0000000001", Ok((1, 1)), [(7, 1), BEFORE]),
    ("(a 24)", Ok((3, 1)), [(24, 1), BEFORE]),
    ("'()24", Ok((2, 1)), [(24, 1), BEFORE]),
    ("'()", Ok((1, 0)), [BEFORE, BEFORE]),
    ("", Ok((0, 0)), [BEFORE, BEFORE]),
    // leaf words that spell no rate
    ("1/0", Err((25, 0)), [BEFORE, BEFORE]),
    ("2147483648", Err((25, 0)), [BEFORE, BEFORE]),
    ("2147483647 2147483648", Err((25, 11)), [BEFORE, BEFORE]),
    ("2147483.647 2147483.648", Err((25, 12)), [BEFORE, BEFORE]),
    ("00000000007 7", Err((25, 0)), [BEFORE, BEFORE]),
    ("5.", Err((25, 0)), [BEFORE, BEFORE]),
    ("1/2/3", Err((25, 0)), [BEFORE, BEFORE]),
    ("24fps", Err((25, 0)), [BEFORE, BEFORE]),
    ("1e3", Err((25, 0)), [BEFORE, BEFORE]),
    ("24 'a", Err((25, 3)), [BEFORE, BEFORE]),
    ("'a 24", Err((25, 0)), [BEFORE, BEFORE]),
    ("24 25 1/0", Err((25, 6)), [BEFORE, BEFORE]),
    // words of no class, and what is refused before the leaf words are read
    (".5", Err((21, 0)), [BEFORE, BEFORE]),
    ("-5", Err((21, 0)), [BEFORE, BEFORE]),
    ("24 -5", Err((21, 3)), [BEFORE, BEFORE]),
    ("1/0 a_b", Err((21, 4)), [BEFORE, BEFORE]),
    ("24 1/0 )", Err((22, 7)), [BEFORE, BEFORE]),
    ("24()", Err((22, 3)), [BEFORE, BEFORE]),
    ("1/0 (", Err((23, 5)), [BEFORE, BEFORE]),
    ("1 2 3 4 5 6 7 8 1/0", Err((24, 16)), [BEFORE, BEFORE]),
];

#[test]
fn leaf_words_are_read_as_rates(rt: HostRuntime) {
    for (text, answer, leaves) in TEXTS {
        assert_eq!(rt; read(text.as_bytes()), (answer, leaves), "{}", text);
    }
}
