// Which places are alike, over both kinds of leaves.
// A text with symbols for leaves, and calls on its sheet with their answers.
pub(crate) const SYMBOLS: [(&str, &str); 12] = [
    // no such place, the first before the second, and then unequal depths
    (
        "(lambda (a) a) b",
        "alike 3 4 refused 11 3
        alike 4 3 refused 11 4
        alike 0 3 refused 11 3
        alike 9 1 refused 11 9
        alike 1 9 refused 11 9
        alike 0 1 refused 12 0 1
        alike 1 0 refused 12 1 0
        alike 1 2 refused 12 1 2
        alike 0 2 no
        alike 2 0 no
        alike 0 0 yes
        alike 1 1 yes
        seal
        alike 3 4 refused 11 3
        alike 0 1 refused 12 0 1
        alike 0 2 no
        alike 1 1 yes",
    ),
    // unequal depths before a hole
    (
        "(lambda (a) X) Y b",
        "alike 1 2 refused 12 1 2
        alike 1 3 refused 12 1 3
        alike 1 1 refused 18 1
        alike 0 2 refused 18 1
        alike 2 0 refused 18 1
        alike 0 3 refused 18 1
        alike 2 3 refused 18 2
        alike 3 2 refused 18 2
        alike 3 3 yes
        alike 4 1 refused 11 4",
    ),
    // the lowest hole at or under either place, whatever the forms are
    (
        "(a (X b)) ('k (b Y)) (c (d '())) Z Z",
        "alike 0 5 refused 18 3
        alike 5 0 refused 18 3
        alike 5 10 refused 18 9
        alike 10 5 refused 18 9
        alike 10 0 refused 18 3
        alike 10 10 yes
        alike 2 7 refused 18 3
        alike 7 6 refused 18 9
        alike 1 11 no
        alike 6 1 no
        alike 15 16 refused 18 15
        alike 16 15 refused 18 15
        alike 16 10 refused 18 16
        alike 16 16 refused 18 16
        alike 15 0 refused 18 3",
    ),
    // shadowing: a name means the innermost binder of its name
    (
        "(lambda (a) (lambda (a) a)) (lambda (c) (lambda (d) d)) (lambda (c) (lambda (d) c)) (lambda (a) (lambda (a) b))",
        "alike 0 3 yes
        alike 3 0 yes
        alike 0 6 no
        alike 3 6 no
        alike 6 6 yes
        alike 0 9 no
        alike 1 4 yes
        alike 2 5 yes
        alike 2 8 no
        alike 5 8 no
        alike 4 7 no
        seal
        alike 0 3 yes
        alike 0 6 no",
    ),
    // free names are alike where they are one name
    (
        "a b a (lambda (c) a) (lambda (b) a) (lambda (c) b)",
        "alike 0 2 yes
        alike 0 1 no
        alike 3 5 yes
        alike 4 6 yes
        alike 3 7 no
        alike 4 8 no
        alike 5 7 no",
    ),
    // names of two binders are alike whatever they are called, also where the places are their insides
    (
        "(lambda (a) (a b)) (lambda (c) (c b)) (lambda (b) (b b)) (lambda (c) (b c))",
        "alike 0 4 yes
        alike 1 5 yes
        alike 2 6 yes
        alike 3 7 yes
        alike 0 8 no
        alike 2 10 yes
        alike 3 11 no
        alike 0 12 no
        alike 2 15 yes
        alike 3 14 yes
        alike 6 15 yes",
    ),
    // a bound name and a free one of one spelling
    (
        "(lambda (a) (lambda (b) a)) (lambda (b) (lambda (a) a)) (lambda (c) (lambda (b) a)) (lambda (x) (lambda (y) x))",
        "alike 0 3 no
        alike 0 6 no
        alike 3 6 no
        alike 0 9 yes
        alike 1 10 yes
        alike 2 11 yes
        alike 2 5 no
        alike 2 8 no
        alike 3 9 no",
    ),
    // kinds that differ, and the parts of calls in their order
    (
        "'() 'a a (a a) (lambda (a) a) '() 'a ('() 'a) ('a '()) ('() 'a)",
        "alike 0 1 no
        alike 0 2 no
        alike 0 3 no
        alike 0 6 no
        alike 1 2 no
        alike 1 3 no
        alike 2 3 no
        alike 3 6 no
        alike 0 8 yes
        alike 1 9 yes
        alike 10 13 no
        alike 10 16 yes
        alike 11 8 yes
        alike 12 14 yes",
    ),
    // what was told does not matter: holes are holes, and what clashes may still be asked for
    (
        "X a Y b (X a) X Y (a a)",
        "alike 0 1 refused 18 0
        tell 0 1 accepted
        alike 0 1 refused 18 0
        alike 7 0 refused 18 0
        tell 2 3 accepted
        tell 7 8 refused 16 3
        alike 1 3 no
        alike 2 3 refused 18 2
        alike 4 9 refused 18 5
        alike 1 6 yes
        look 5 . name 0
        standing 2
        seal
        alike 0 1 refused 18 0
        alike 4 9 refused 18 5
        alike 1 6 yes
        alike 1 3 no
        pairs 0 1 2 3",
    ),
    // places that are told to be equal are not alike for that, and alike places need not be told
    (
        "(lambda (a) a) (lambda (b) b) (lambda (a) c) (lambda (d) d)",
        "tell 0 4 refused 16 5
        alike 0 4 no
        alike 0 2 yes
        tell 0 2 accepted
        tell 2 6 accepted
        alike 0 6 yes
        alike 4 6 no
        seal
        standing 2
        alike 0 6 yes",
    ),
    // no recipe: every place is past the end
    (
        "",
        "alike 0 0 refused 11 0
        alike 2 1 refused 11 2
        seal
        alike 1 0 refused 11 1",
    ),
    // symbols are alike where they are one word
    (
        "'a 'b 'a ('a 'b) ('a 'b) ('b 'a) (lambda (a) 'a) (lambda (b) 'a)",
        "alike 0 1 no
        alike 0 2 yes
        alike 3 6 yes
        alike 3 9 no
        alike 12 14 yes
        alike 13 15 yes
        alike 13 0 refused 12 13 0",
    ),
];

// A text with rates for leaves, and calls on its sheet with their answers.
pub(crate) const RATES: [(&str, &str); 3] = [
    // rates are alike where they stand for one number
    (
        "24 48/2 24.0 25 29.97 30000/1001",
        "alike 0 1 yes
        alike 1 2 yes
        alike 2 0 yes
        alike 0 3 no
        alike 4 5 no
        alike 3 3 yes
        alike 6 0 refused 11 6
        seal
        alike 0 1 yes
        alike 0 3 no",
    ),
    (
        "(lambda (a) (a 24)) (lambda (b) (b 48/2)) (lambda (b) (b 23.976)) (lambda (a) (X 24))",
        "alike 0 4 yes
        alike 0 8 no
        alike 3 7 yes
        alike 7 11 no
        alike 2 6 yes
        alike 0 12 refused 18 14
        alike 3 15 yes
        alike 2 14 refused 18 14",
    ),
    // what was told of rates does not matter
    (
        "X 24 X 25 48/2 (X 24) (24 48/2) (24 24)",
        "tell 0 1 accepted
        tell 2 3 refused 14 1 3
        alike 0 1 refused 18 0
        alike 1 3 no
        alike 1 4 yes
        alike 5 8 refused 18 6
        alike 8 11 yes
        look 6 . leaf 0",
    ),
];
