// Texts that are read: recipes, and the table that they spell.
use crate::reports::first_misread;
use std::test::Fail;

const SAMPLES: [(&str, &str); 24] = [
    ("X a", "0 hole 0 X\n1 name 0 a\n"),
    (
        "X Y X a Y b",
        "0 hole 0 X\n1 hole 1 Y\n2 hole 0 X\n3 name 0 a\n4 hole 1 Y\n5 name 1 b\n",
    ),
    (
        "(X X) (a b)",
        "0 call 1 2\n1 hole 0 X\n2 hole 0 X\n3 call 4 5\n4 name 0 a\n5 name 1 b\n",
    ),
    (
        "X (a b) X c",
        "0 hole 0 X\n1 call 2 3\n2 name 0 a\n3 name 1 b\n4 hole 0 X\n5 name 2 c\n",
    ),
    (
        "(X X) ((a b) (a b))",
        "0 call 1 2\n1 hole 0 X\n2 hole 0 X\n3 call 4 7\n4 call 5 6\n5 name 0 a\n6 name 1 b\n7 call 8 9\n8 name 0 a\n9 name 1 b\n",
    ),
    (
        "X Y X (a b) Y '()",
        "0 hole 0 X\n1 hole 1 Y\n2 hole 0 X\n3 call 4 5\n4 name 0 a\n5 name 1 b\n6 hole 1 Y\n7 nil\n",
    ),
    (
        "(lambda (a) X) (lambda (b) a)",
        "0 bind 0 1 a\n1 hole 0 X\n2 bind 1 3 b\n3 name 0 a\n",
    ),
    (
        "X (X a)",
        "0 hole 0 X\n1 call 2 3\n2 hole 0 X\n3 name 0 a\n",
    ),
    (
        "X (Y a) Y (X b)",
        "0 hole 0 X\n1 call 2 3\n2 hole 1 Y\n3 name 0 a\n4 hole 1 Y\n5 call 6 7\n6 hole 0 X\n7 name 1 b\n",
    ),
    (
        "(lambda (a) X) (lambda (c) X) X (b d)",
        "0 bind 0 1 a\n1 hole 0 X\n2 bind 1 3 c\n3 hole 0 X\n4 hole 0 X\n5 call 6 7\n6 name 2 b\n7 name 3 d\n",
    ),
    (
        "X (Y '()) Y a (lambda (a) X) (lambda (c) X)",
        "0 hole 0 X\n1 call 2 3\n2 hole 1 Y\n3 nil\n4 hole 1 Y\n5 name 0 a\n6 bind 0 7 a\n7 hole 0 X\n8 bind 1 9 c\n9 hole 0 X\n",
    ),
    (
        "(lambda (a) X) (lambda (c) X) X (lambda (a) Y) (lambda (a) Y) (lambda (b) b)",
        "0 bind 0 1 a\n1 hole 0 X\n2 bind 1 3 c\n3 hole 0 X\n4 hole 0 X\n5 bind 0 6 a\n6 hole 1 Y\n7 bind 0 8 a\n8 hole 1 Y\n9 bind 2 10 b\n10 name 2 b\n",
    ),
    (
        "(lambda (a) (lambda (b) X)) (lambda (b) (lambda (a) Y)) X Y X a",
        "0 bind 0 1 a\n1 bind 1 2 b\n2 hole 0 X\n3 bind 1 4 b\n4 bind 0 5 a\n5 hole 1 Y\n6 hole 0 X\n7 hole 1 Y\n8 hole 0 X\n9 name 0 a\n",
    ),
    (
        "(lambda (a) (lambda (b) (lambda (c) X))) (lambda (b) (lambda (c) (lambda (a) X))) X d X a",
        "0 bind 0 1 a\n1 bind 1 2 b\n2 bind 2 3 c\n3 hole 0 X\n4 bind 1 5 b\n5 bind 2 6 c\n6 bind 0 7 a\n7 hole 0 X\n8 hole 0 X\n9 name 3 d\n10 hole 0 X\n11 name 0 a\n",
    ),
    (
        "(lambda (a) (lambda (a) a)) (lambda (c) (lambda (d) d))",
        "0 bind 0 1 a\n1 bind 0 2 a\n2 name 0 a\n3 bind 1 4 c\n4 bind 2 5 d\n5 name 2 d\n",
    ),
    (
        "(X 'a) ((X '()) 'b)",
        "0 call 1 2\n1 hole 0 X\n2 leaf 0 'a\n3 call 4 7\n4 call 5 6\n5 hole 0 X\n6 nil\n7 leaf 1 'b\n",
    ),
    (
        "(lambda (x) (lambda (y) (y x))) (lambda (a) (lambda (a) (a a)))",
        "0 bind 0 1 x\n1 bind 1 2 y\n2 call 3 4\n3 name 1 y\n4 name 0 x\n5 bind 2 6 a\n6 bind 2 7 a\n7 call 8 9\n8 name 2 a\n9 name 2 a\n",
    ),
    (
        "(lambda (a) X)\n(lambda (b) b)\n'lift\n'gain\n",
        "0 bind 0 1 a\n1 hole 0 X\n2 bind 1 3 b\n3 name 1 b\n4 leaf 0 'lift\n5 leaf 1 'gain\n",
    ),
    ("(a b) ", "0 call 1 2\n1 name 0 a\n2 name 1 b\n"),
    ("Abcdefgh X2", "0 hole 0 Abcdefgh\n1 hole 1 X2\n"),
    // each leaf word is a leaf of its own, and names count where they are written, those of binders too
    ("'a 'a", "0 leaf 0 'a\n1 leaf 1 'a\n"),
    ("(lambda (b) a) b", "0 bind 0 1 b\n1 name 1 a\n2 name 0 b\n"),
    (
        "(a (lambda (b) (b c)))",
        "0 call 1 2\n1 name 0 a\n2 bind 1 3 b\n3 call 4 5\n4 name 1 b\n5 name 2 c\n",
    ),
    (
        "((X a) ('b '()))",
        "0 call 1 4\n1 call 2 3\n2 hole 0 X\n3 name 0 a\n4 call 5 6\n5 leaf 0 'b\n6 nil\n",
    ),
];

#[test]
fn recipes_are_read_as_tables(rt: HostRuntime) -> Result<(), Fail> {
    assert_eq!(rt; first_misread(rt.alloc(), &SAMPLES)?, None);
    Ok(())
}
