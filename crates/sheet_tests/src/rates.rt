// Recipes whose leaves are rates: two rates are one leaf where they stand for one number.

// A text, and calls on its sheet with their answers.
pub(crate) const ROWS: [(&str, &str); 9] = [
    // a whole number and a fraction
    (
        "24 48/2",
        "look 1 . leaf 0
        tell 0 1 accepted
        look 0 . leaf 0
        look 1 . leaf 0",
    ),
    // 29.97 is not 30000/1001
    (
        "29.97 30000/1001",
        "tell 0 1 refused 14 0 1
        look 0 . leaf 0
        look 1 . leaf 1",
    ),
    // zeros before a number
    (
        "007 7",
        "tell 0 1 accepted
        look 1 . leaf 0",
    ),
    // two spellings of nothing
    (
        "0/5 0.0",
        "tell 0 1 accepted
        look 1 . leaf 0
        look 1 .0 absent",
    ),
    // a decimal and a fraction, and a hole that is a rate
    (
        "23.976 23976/1000 X 25",
        "look 2 . open
        tell 0 1 accepted
        tell 2 3 accepted
        look 2 . leaf 2
        look 1 . leaf 0
        seal
        look 2 . leaf 2
        look 2 .1 absent
        pairs 0 1 2 3",
    ),
    // a hole is two spellings of one rate, and then not another rate
    (
        "X 24 X 48/2 X 25/1",
        "tell 0 1 accepted
        tell 2 3 accepted
        tell 4 5 refused 14 1 5
        look 0 . leaf 0
        look 3 . leaf 0
        look 5 . leaf 2
        seal
        standing 2
        pairs 0 1 2 3",
    ),
    // the first spelling of a rate numbers it, also where a hole is told to be a later one
    (
        "25 50/2 X (75/3 Y) Y 1 2/2",
        "tell 2 1 accepted
        look 2 . leaf 0
        tell 2 4 accepted
        look 3 .0 leaf 0
        tell 6 8 accepted
        look 3 .1 leaf 3
        tell 5 0 refused 14 0 8
        look 8 . leaf 3",
    ),
    // a rate under binders
    (
        "(lambda (a) (a 24)) (lambda (b) (X 24/1))",
        "tell 0 4 accepted
        look 6 . name 1
        look 4 .20 local 0
        look 4 .21 leaf 0
        look 4 .210 absent",
    ),
    // one name is not a rate
    (
        "a 24 X",
        "tell 0 1 refused 14 0 1
        tell 2 1 accepted
        tell 2 0 refused 14 0 1
        look 2 . leaf 0",
    ),
];
