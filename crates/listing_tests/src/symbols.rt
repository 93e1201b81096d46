// Texts with symbols for leaves, and what comes of them.
use crate::listed::first_wrong;
use leaves::Symbol;
use std::test::Fail;

const TEXTS: [(&str, &str); 48] = [
    ("X a", "tell 0 1 accepted\nX name a\n"),
    (
        "X Y X a Y b",
        "tell 0 1 accepted\ntell 2 3 accepted\ntell 4 5 refused 16 5\nX name a\nY name a\n",
    ),
    ("(X X) (a b)", "tell 0 3 refused 16 5\nX open\n"),
    (
        "X (a b) X c",
        "tell 0 1 accepted\ntell 4 5 refused 14 1 5\nX call\n",
    ),
    ("(X X) ((a b) (a b))", "tell 0 3 accepted\nX call\n"),
    (
        "X Y X (a b) Y '()",
        "tell 0 1 accepted\ntell 2 3 accepted\ntell 6 7 refused 14 3 7\nX call\nY call\n",
    ),
    (
        "(lambda (a) X) (lambda (b) a)",
        "tell 0 2 refused 16 3\nX open\n",
    ),
    ("X (X a)", "tell 0 1 refused 15 0\nX open\n"),
    (
        "X (Y a) Y (X b)",
        "tell 0 1 accepted\ntell 4 5 refused 15 0\nX call\nY open\n",
    ),
    (
        "(lambda (a) X) (lambda (c) X) X (b d)",
        "tell 0 2 accepted\ntell 4 5 accepted\nX call\n",
    ),
    (
        "X (Y '()) Y a (lambda (a) X) (lambda (c) X)",
        "tell 0 1 accepted\ntell 4 5 accepted\ntell 6 8 refused 16 5\nX call\nY name a\n",
    ),
    (
        "(lambda (a) X) (lambda (c) X) X (lambda (a) Y) (lambda (a) Y) (lambda (b) b)",
        "tell 0 2 accepted\ntell 4 5 accepted\ntell 7 9 accepted\nX bind\nY name a\n",
    ),
    (
        "(lambda (a) (lambda (b) X)) (lambda (b) (lambda (a) Y)) X Y X a",
        "tell 0 3 accepted\ntell 6 7 accepted\ntell 8 9 refused 16 9\nX open\nY open\n",
    ),
    (
        "(lambda (a) (lambda (b) (lambda (c) X))) (lambda (b) (lambda (c) (lambda (a) X))) X d X a",
        "tell 0 4 accepted\ntell 8 9 accepted\ntell 10 11 refused 16 11\nX name d\n",
    ),
    (
        "(lambda (a) (lambda (a) a)) (lambda (c) (lambda (d) d))",
        "tell 0 3 accepted\n",
    ),
    ("(X 'a) ((X '()) 'b)", "tell 0 3 refused 14 2 7\nX open\n"),
    (
        "(lambda (x) (lambda (y) (y x))) (lambda (a) (lambda (a) (a a)))",
        "tell 0 5 refused 16 4\n",
    ),
    (
        "(lambda (a) X)\n(lambda (b) b)\n'lift\n'gain\n",
        "tell 0 2 accepted\ntell 4 5 refused 14 4 5\nX name a\n",
    ),
    ("(a b c)", "text refused 22 5\n"),
    ("'", "text refused 25 0\n"),
    ("' ()", "text refused 22 3\n"),
    ("''()", "text refused 22 3\n"),
    ("'a()", "text refused 22 3\n"),
    ("a'()", "text refused 21 0\n"),
    ("'( )", "text refused 21 0\n"),
    ("()", "text refused 22 1\n"),
    ("(a)", "text refused 22 2\n"),
    (")", "text refused 22 0\n"),
    ("lambda", "text refused 22 0\n"),
    ("(x lambda)", "text refused 22 3\n"),
    ("(lambda (lambda) a)", "text refused 22 9\n"),
    ("(lambda (X) a)", "text refused 22 9\n"),
    ("(lambda () a)", "text refused 22 9\n"),
    ("(lambda (a b) a)", "text refused 22 11\n"),
    ("(lambda a b)", "text refused 22 8\n"),
    ("(lambda (a))", "text refused 22 11\n"),
    ("(lambda (a) b c)", "text refused 22 14\n"),
    ("(", "text refused 23 1\n"),
    ("(a b) ", "over 0\n"),
    ("abcdefghi", "text refused 21 0\n"),
    ("Abcdefgh X2", "tell 0 1 accepted\nAbcdefgh open\nX2 open\n"),
    ("a_b", "text refused 21 0\n"),
    ("'abcdefgh 'abcdefghi", "text refused 25 10\n"),
    ("'Lift", "text refused 25 0\n"),
    ("24", "text refused 25 0\n"),
    ("(a(b c))", "over 0\n"),
    ("'()x", "tell 0 1 refused 14 0 1\n"),
    ("", ""),
];

#[test]
fn texts_with_symbols_are_listed(rt: HostRuntime) -> Result<(), Fail> {
    let mut leaves = [Symbol { packed: 0 }; 64];
    assert_eq!(rt; first_wrong(&TEXTS, &mut leaves), None);
    Ok(())
}
