// Recipes whose leaves are symbols: what holes, binders and names come to.

// A text, and calls on its sheet with their answers.
pub(crate) const ROWS: [(&str, &str); 24] = [
    // a hole is a name
    (
        "X a",
        "tell 0 1 accepted
        look 0 . name 0
        look 1 . name 0
        standing 1
        opened accepted",
    ),
    // two holes that are names are told to be one
    (
        "X Y X a Y b",
        "tell 0 1 accepted
        tell 2 3 accepted
        tell 4 5 refused 16 5
        look 0 . name 0
        look 1 . name 0
        look 4 . name 0
        seal
        standing 2
        pairs 0 1 2 3",
    ),
    // one hole is not two names
    (
        "(X X) (a b)",
        "tell 0 3 refused 16 5
        look 1 . open
        look 2 . open
        look 0 .0 open
        seal
        standing 0
        pairs",
    ),
    // a call is not a name
    (
        "X (a b) X c",
        "tell 0 1 accepted
        tell 4 5 refused 14 1 5
        look 0 . call
        look 4 .0 name 0
        look 4 .1 name 1
        look 4 .2 absent",
    ),
    // both parts of a call are one call
    (
        "(X X) ((a b) (a b))",
        "tell 0 3 accepted
        look 1 . call
        look 2 .1 name 1
        look 0 .10 name 0",
    ),
    // a call is not nil, by two holes
    (
        "X Y X (a b) Y '()",
        "tell 0 1 accepted
        tell 2 3 accepted
        tell 6 7 refused 14 3 7
        look 0 . call
        look 1 . call
        seal
        look 6 . call
        pairs 0 1 2 3",
    ),
    // no filling of a hole under a binder is the free name of that binder
    (
        "(lambda (a) X) (lambda (b) a)",
        "tell 0 2 refused 16 3
        look 1 . open
        look 3 . name 0
        look 2 .2 name 0",
    ),
    // a hole is not a call of itself
    (
        "X (X a)",
        "tell 0 1 refused 15 0
        look 0 . open
        look 1 .0 open",
    ),
    // two holes are not calls of each other
    (
        "X (Y a) Y (X b)",
        "tell 0 1 accepted
        tell 4 5 refused 15 0
        look 0 . call
        look 2 . open
        look 0 .0 open
        look 0 .1 name 0
        look 6 .1 name 0",
    ),
    // a hole under two binders is a call of other names
    (
        "(lambda (a) X) (lambda (c) X) X (b d)",
        "tell 0 2 accepted
        tell 4 5 accepted
        look 1 . call
        look 3 .0 name 2
        look 0 .21 name 3
        look 2 .20 name 2",
    ),
    // a hole under two binders has none of their names, also not by way of another hole
    (
        "X (Y '()) Y a (lambda (a) X) (lambda (c) X)",
        "tell 0 1 accepted
        tell 4 5 accepted
        tell 6 8 refused 16 5
        look 0 . call
        look 2 . name 0
        look 9 .0 name 0
        look 6 .20 local 0
        look 8 .20 name 0
        seal
        look 8 .21 nil
        pairs 0 1 4 5",
    ),
    // a hole under two binders is a bind of one of their names
    (
        "(lambda (a) X) (lambda (c) X) X (lambda (a) Y) (lambda (a) Y) (lambda (b) b)",
        "tell 0 2 accepted
        tell 4 5 accepted
        look 4 .2 open
        tell 7 9 accepted
        look 1 . bind
        look 6 . name 0
        look 4 .2 local 0
        look 0 .22 local 1
        look 5 .2 local 0
        look 7 .2 local 0",
    ),
    // two binders exchanged: a hole that stands under both orders is none of their names
    (
        "(lambda (a) (lambda (b) X)) (lambda (b) (lambda (a) Y)) X Y X a",
        "tell 0 3 accepted
        tell 6 7 accepted
        tell 8 9 refused 16 9
        look 2 . open
        look 5 . open
        look 0 .22 open",
    ),
    // three binders in another order: a hole that stands under both orders is a fourth name, and none of theirs
    (
        "(lambda (a) (lambda (b) (lambda (c) X))) (lambda (b) (lambda (c) (lambda (a) X))) X d X a",
        "tell 0 4 accepted
        tell 8 9 accepted
        tell 10 11 refused 16 11
        look 3 . name 3
        look 4 .222 name 3",
    ),
    // a name means the inner of two binders of its name
    (
        "(lambda (a) (lambda (a) a)) (lambda (c) (lambda (d) d))",
        "tell 0 3 accepted
        look 0 .22 local 1
        look 3 .22 local 1
        look 1 .2 local 0
        look 2 . name 0",
    ),
    // two symbols clash, which comes before a hole that would contain itself
    (
        "(X 'a) ((X '()) 'b)",
        "tell 0 3 refused 14 2 7
        look 1 . open
        look 3 .00 open
        look 3 .01 nil",
    ),
    // where a binder covers another of its name, no name means the outer one
    (
        "(lambda (x) (lambda (y) (y x))) (lambda (a) (lambda (a) (a a)))",
        "tell 0 5 refused 16 4
        look 0 .220 local 1
        look 0 .221 local 0
        look 5 .220 local 1
        look 5 .221 local 1",
    ),
    // two symbols are not one leaf, after an accepted tell
    (
        "(lambda (a) X)\n(lambda (b) b)\n'lift\n'gain\n",
        "tell 0 2 accepted
        tell 4 5 refused 14 4 5
        look 1 . name 0
        look 3 . name 1
        look 4 . leaf 0
        look 5 . leaf 1",
    ),
    // two holes are one, and nothing more
    (
        "Abcdefgh X2",
        "tell 0 1 accepted
        look 0 . open
        look 1 . open
        seal
        look 1 .0 open
        pairs 0 1",
    ),
    // nil is not a name
    (
        "'()x",
        "tell 0 1 refused 14 0 1
        look 0 . nil
        look 1 . name 0",
    ),
    // one recipe, without a pair
    (
        "(a b) ",
        "look 0 . call
        look 0 .1 name 1
        standing 0",
    ),
    (
        "(a(b c))",
        "look 0 .1 call
        look 0 .11 name 2
        seal
        standing 0
        pairs",
    ),
    // no recipe: every place is past the end
    (
        "",
        "tell 0 0 refused 11 0
        look 0 . refused 11 0
        standing 0
        opened accepted
        seal
        look 0 . refused 11 0
        look 1 .3 refused 11 1
        standing 0
        opened accepted
        pairs",
    ),
    // a clash comes before names that disagree, and a hole that would contain itself too
    (
        "((X X) '()) ((a b) 'k) (Z (Y Y)) ((Z a) (b c))",
        "tell 0 5 refused 14 4 9
        tell 10 15 refused 15 11
        look 2 . open
        look 12 . call
        look 13 . open
        tell 1 6 refused 16 8
        tell 12 19 refused 16 21
        standing 0",
    ),
];
