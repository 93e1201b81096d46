// Looks, over symbols: through holes, under binders, along paths that lead out of the recipe, and after the seal.

// A text, and calls on its sheet with their answers.
pub(crate) const ROWS: [(&str, &str); 14] = [
    // a hole that has to be a bind of another name, since a binder of the name above it would hold the name inside
    (
        "(lambda (a) X) (lambda (y) (lambda (a) y))",
        "tell 0 2 accepted
        look 1 . bind
        look 1 .2 name 0
        look 1 .0 absent
        look 1 .20 absent
        look 0 .2 bind
        look 0 .22 local 0
        look 2 .22 local 0
        look 3 .2 name 1
        look 4 . name 1
        seal
        look 1 . bind
        look 1 .2 name 0
        standing 1
        pairs 0 2",
    ),
    // absent where a form has no part, open past what is open, and steps above 2 anywhere in a path
    (
        "X (Y Y)",
        "look 0 . open
        look 0 .2 open
        tell 0 1 accepted
        look 0 . call
        look 0 .0 open
        look 0 .1 open
        look 0 .2 absent
        look 0 .00 open
        look 0 .02 open
        look 0 .1201 open
        look 0 .20 absent
        look 0 .2120 absent
        look 0 .3 refused 17 0
        look 0 .23 refused 17 1
        look 0 .2/ refused 17 1
        look 0 .01012x23 refused 17 5
        look 2 .3 refused 17 0
        look 4 . refused 11 4
        look 4 .3 refused 11 4
        look 512 .012 refused 11 512
        seal
        look 0 .02 open
        look 0 .23 refused 17 1
        look 5 .3 refused 11 5",
    ),
    // forms without parts
    (
        "a '() 'x X (lambda (a) a)",
        "look 0 .0 absent
        look 0 .1 absent
        look 0 .2 absent
        look 1 . nil
        look 1 .2 absent
        look 2 . leaf 0
        look 2 .0 absent
        look 3 .012 open
        look 3 .0123 refused 17 3
        look 4 .0 absent
        look 4 .1 absent
        look 4 .2 local 0
        look 4 .22 absent
        look 5 . name 0",
    ),
    // levels count the binds on the path, from the place that it starts from
    (
        "(lambda (a) (lambda (b) (a (b (c (lambda (a) (a b)))))))",
        "look 0 .220 local 0
        look 0 .2210 local 1
        look 0 .22110 name 2
        look 0 .22111 bind
        look 0 .2211120 local 2
        look 0 .2211121 local 1
        look 1 .20 name 0
        look 1 .210 local 0
        look 1 .211120 local 1
        look 2 .0 name 0
        look 2 .10 name 1
        look 8 .20 local 0
        look 8 .21 name 1
        look 9 .0 name 0",
    ),
    // no name reaches the outer of two binders of one name
    (
        "(lambda (a) (lambda (a) X)) (lambda (c) (lambda (d) c))",
        "tell 0 3 refused 16 5
        look 2 . open
        look 0 .22 open
        look 3 .22 local 0
        look 4 .2 name 1",
    ),
    (
        "(lambda (a) (lambda (a) (X a))) (lambda (c) (lambda (d) (d d)))",
        "tell 0 5 accepted
        look 3 . name 0
        look 0 .220 local 1
        look 0 .221 local 1
        look 1 .20 local 0
        look 2 .0 name 0
        look 5 .220 local 1",
    ),
    // one binder is told to be two that cover each other: its name is the inner
    (
        "(lambda (a) (lambda (b) (X Y))) (lambda (c) (lambda (c) (c d)))",
        "tell 0 5 accepted
        look 3 . name 1
        look 4 . name 3
        look 0 .220 local 1
        look 0 .221 name 3
        look 5 .220 local 1
        look 6 .21 name 3",
    ),
    // a free name is itself under binders of other names
    (
        "(lambda (a) X) (lambda (b) c)",
        "tell 0 2 accepted
        look 1 . name 2
        look 0 .2 name 2
        look 2 .2 name 2",
    ),
    // holes that are one, until one of them is told to be a call
    (
        "X Y Y Z Z (a X2)",
        "tell 0 1 accepted
        look 0 . open
        tell 2 3 accepted
        look 3 . open
        look 0 .2 open
        tell 4 5 accepted
        look 0 . call
        look 1 .0 name 0
        look 3 .1 open
        look 2 .10 open
        look 0 .12 open
        look 0 .2 absent
        look 7 . open
        seal
        look 0 . call
        look 0 .1 open
        standing 3
        pairs 0 1 2 3 4 5",
    ),
    // what stands under one binder is seen under another
    (
        "(lambda (a) (a X)) (lambda (b) (Y (b '())))",
        "tell 0 4 accepted
        look 6 . name 1
        look 3 . call
        look 3 .0 name 0
        look 3 .1 nil
        look 3 .2 absent
        look 0 .20 local 0
        look 0 .210 local 0
        look 4 .20 local 0
        look 7 .0 name 1",
    ),
    // a name inside a hole that is a bind: held by that bind, or free
    (
        "X (lambda (a) (a b)) Y",
        "tell 5 0 accepted
        look 5 . open
        tell 0 1 accepted
        look 5 . bind
        look 0 .2 call
        look 5 .20 local 0
        look 0 .21 name 1
        look 0 .1 absent
        look 5 .210 absent",
    ),
    // the hole of a bind is told to be the name of that bind, or another
    (
        "X (lambda (a) Y) Y a Z (lambda (a) W) W b",
        "tell 0 1 accepted
        look 0 .2 open
        tell 3 4 accepted
        look 0 .2 local 0
        look 1 .2 local 0
        look 2 . name 0
        tell 5 6 accepted
        tell 8 9 accepted
        look 5 .2 name 1
        look 7 . name 1
        look 5 .20 absent",
    ),
    // leaves are numbered by the first same leaf
    (
        "'a ('b 'a) X 'b 'b",
        "look 0 . leaf 0
        look 1 .0 leaf 1
        look 1 .1 leaf 0
        look 6 . leaf 1
        tell 4 6 accepted
        look 4 . leaf 1
        tell 4 3 refused 14 3 6
        look 4 . leaf 1
        tell 5 6 accepted
        tell 0 3 accepted
        look 4 . leaf 1
        look 4 .0 absent
        seal
        look 4 . leaf 1
        look 3 . leaf 0
        pairs 4 6 5 6 0 3",
    ),
    // two holes under binders of different names, told under one another
    (
        "(lambda (a) (lambda (b) (X a))) (lambda (b) (lambda (a) (b Y)))",
        "tell 0 5 accepted
        look 3 . name 0
        look 9 . name 1
        look 0 .220 local 0
        look 0 .221 local 0
        look 5 .221 local 0
        look 6 .21 name 1",
    ),
];
