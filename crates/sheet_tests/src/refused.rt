// What a refused tell leaves: nothing. And which refusal comes first.

// A text, and calls on its sheet with their answers.
pub(crate) const ROWS: [(&str, &str); 10] = [
    // a clash, and names that disagree: X is (a b), and Y is then a
    (
        "X (a b) X c X (Y b) Y b Y a",
        "tell 0 1 accepted
        tell 4 5 refused 14 1 5
        look 0 .0 name 0
        look 8 . open
        tell 6 7 accepted
        look 8 . name 0
        tell 10 11 refused 16 11
        look 8 . name 0
        tell 12 13 accepted
        tell 4 5 refused 14 1 5
        look 8 . name 0
        seal
        look 10 . name 0
        standing 3
        pairs 0 1 6 7 12 13",
    ),
    // a hole that would contain itself, and two holes that would contain each other
    (
        "X (X a) X (Y b) Y X Y c",
        "tell 0 1 refused 15 0
        look 0 . open
        tell 4 5 accepted
        tell 8 9 refused 15 0
        look 8 . open
        tell 10 11 accepted
        tell 0 1 refused 14 1 11
        look 0 . call
        look 0 .0 name 2
        look 0 .1 name 1
        seal
        pairs 4 5 10 11",
    ),
    // names that disagree under binders
    (
        "(lambda (a) X) (lambda (b) a) (lambda (a) X) (lambda (b) b) X a",
        "tell 0 2 refused 16 3
        look 1 . open
        tell 4 6 accepted
        look 1 . name 0
        tell 8 9 accepted
        tell 0 2 refused 16 3
        look 5 . name 0",
    ),
    // names that disagree under two binders of one name
    (
        "(lambda (a) (lambda (a) X)) (lambda (c) (lambda (d) c)) (lambda (a) (lambda (a) X)) (lambda (c) (lambda (d) d)) X a",
        "tell 0 3 refused 16 5
        look 2 . open
        tell 6 9 accepted
        tell 12 13 accepted
        tell 0 3 refused 16 5
        look 2 . name 0
        look 0 .22 local 1",
    ),
    // names that disagree in a call: X is c after it
    (
        "(X X) (a b) X c Y X Y c",
        "tell 0 3 refused 16 5
        tell 6 7 accepted
        tell 8 9 accepted
        look 10 . name 2
        tell 10 11 accepted
        look 0 .1 name 2
        seal
        standing 3
        pairs 6 7 8 9 10 11",
    ),
    // leaves that are not the same: X is 'a after it
    (
        "(X X) ('a 'b) X 'a",
        "tell 0 3 refused 14 4 5
        look 2 . open
        tell 6 7 accepted
        tell 0 3 refused 14 4 5
        tell 4 7 accepted
        look 1 . leaf 0",
    ),
    // no such place, and unequal depths
    (
        "(lambda (a) X) b Y",
        "tell 1 2 refused 12 1 2
        tell 2 1 refused 12 2 1
        tell 0 9 refused 11 9
        tell 9 0 refused 11 9
        tell 9 1 refused 11 9
        tell 1 9 refused 11 9
        tell 5 4 refused 11 5
        tell 4 5 refused 11 4
        tell 3 2 accepted
        tell 3 0 refused 14 0 2
        tell 3 3 accepted
        tell 1 1 accepted
        look 3 . name 1
        look 1 . open
        seal
        pairs 3 2 3 3 1 1",
    ),
    // a pair told again, in both orders, and a place told with itself
    (
        "X a",
        "tell 0 1 accepted
        tell 0 1 accepted
        tell 1 0 accepted
        tell 0 0 accepted
        tell 1 1 accepted
        tell 0 1 accepted
        standing 6
        seal
        look 0 . name 0
        standing 6
        pairs 0 1 0 1 1 0 0 0 1 1 0 1",
    ),
    // one recipe told with others, and refused again and again
    (
        "(lambda (a) X) b",
        "tell 0 0 accepted
        tell 2 2 accepted
        tell 0 2 refused 14 0 2
        tell 2 0 refused 14 0 2
        tell 0 2 refused 14 0 2
        tell 0 1 refused 12 0 1
        tell 1 0 refused 12 1 0
        tell 1 1 accepted
        look 1 . open
        standing 3",
    ),
    // names that disagree under binders that are told already
    (
        "(lambda (a) X) (lambda (b) b) (lambda (c) X) (lambda (d) d)",
        "tell 0 2 accepted
        tell 4 6 refused 16 7
        look 5 . name 0
        look 4 .2 name 0
        look 6 .2 local 0",
    ),
];
