// Tables of recipes, with calls and their answers: one list for programs and tests, and for the theorem that the rules give these answers.
ghost use Rattle.std.specs.Prelude.{◌≡◌, map};
ghost use Rattle.specimens.specs.Examples.{AllAsListed, example_of, examples};
ghost use Rattle.specimens.specs.Examples.{identity, shadowed, renaming, endless, two_binders, twin_parts, equal_rates, unused_binders};

use leaves::Rate;
use recipe::{Finding, Kind, Label, Place, Refusal};

// The record of a place, by what stands there.
macro_rules! place {
    (nil) => {
        place!(Nil, 0, 0)
    };
    (leaf $number:expr) => {
        place!(Leaf, $number, 0)
    };
    (name $number:expr) => {
        place!(Name, $number, 0)
    };
    (hole $number:expr) => {
        place!(Hole, $number, 0)
    };
    (bind $name:expr, $inside:expr) => {
        place!(Bind, $name, $inside)
    };
    (call $left:expr, $right:expr) => {
        place!(Call, $left, $right)
    };
    ($kind:ident, $a:expr, $b:expr) => {
        Place { kind: Kind::$kind as u32, a: $a, b: $b }
    };
}

// A call on a sheet, with its answer.
#[derive(Clone, Copy, Debug, PartialEq, Eq)]
pub enum Call {
    Tell(usize, usize, Result<(), Refusal>),
    Look(usize, &'static [u8], Result<Finding, Refusal>),
}

// Recipes as text, the spellings of their names, the table that they are read as, and calls on the sheet of that table.
#[derive(Clone, Copy, Debug, PartialEq, Eq)]
pub struct Specimen {
    pub recipes: &'static str,
    pub names: &'static [&'static str],
    pub places: &'static [Place],
    pub leaves: &'static [Rate],
    pub calls: &'static [Call],
}

// Each example is a function, whose contract says which one it is: as constants in one function they are more than the
// check computes at once.

// X can only be the name a.
fn identity() -> Specimen
    ensures { example_of result ≡ identity }
{
    Specimen {
        recipes: "(lambda (a) X) (lambda (b) b)",
        names: &["a", "b"],
        places: &[
            place!(bind 0, 1),
            place!(hole 0),
            place!(bind 1, 3),
            place!(name 1),
        ],
        leaves: &[],
        calls: &[
            Call::Tell(0, 2, Ok(())),
            Call::Look(1, &[], Ok(Finding::Label(Label::Name(0)))),
        ],
    }
}

// No name reaches the outer of two binders of one name.
fn shadowed() -> Specimen
    ensures { example_of result ≡ shadowed }
{
    Specimen {
        recipes: "(lambda (a) (lambda (a) X)) (lambda (c) (lambda (d) c))",
        names: &["a", "c", "d"],
        places: &[
            place!(bind 0, 1),
            place!(bind 0, 2),
            place!(hole 0),
            place!(bind 1, 4),
            place!(bind 2, 5),
            place!(name 1),
        ],
        leaves: &[],
        calls: &[Call::Tell(0, 3, Err(Refusal::NamesDisagree { place: 5 }))],
    }
}

// X is a bind of some other name than a.
fn renaming() -> Specimen
    ensures { example_of result ≡ renaming }
{
    Specimen {
        recipes: "(lambda (a) X) (lambda (y) (lambda (a) y))",
        names: &["a", "y"],
        places: &[
            place!(bind 0, 1),
            place!(hole 0),
            place!(bind 1, 3),
            place!(bind 0, 4),
            place!(name 1),
        ],
        leaves: &[],
        calls: &[
            Call::Tell(0, 2, Ok(())),
            Call::Look(1, &[], Ok(Finding::Label(Label::Bind))),
            Call::Look(1, &[2], Ok(Finding::Label(Label::Name(0)))),
        ],
    }
}

// X would contain itself.
fn endless() -> Specimen
    ensures { example_of result ≡ endless }
{
    Specimen {
        recipes: "X (X '())",
        names: &[],
        places: &[
            place!(hole 0),
            place!(call 2, 3),
            place!(hole 0),
            place!(nil),
        ],
        leaves: &[],
        calls: &[Call::Tell(0, 1, Err(Refusal::Cyclic { place: 0 }))],
    }
}

// a is not free in X, and so X is not a.
fn unused_binders() -> Specimen
    ensures { example_of result ≡ unused_binders }
{
    Specimen {
        recipes: "(lambda (a) X) (lambda (c) X) X a",
        names: &["a", "c"],
        places: &[
            place!(bind 0, 1),
            place!(hole 0),
            place!(bind 1, 3),
            place!(hole 0),
            place!(hole 0),
            place!(name 0),
        ],
        leaves: &[],
        calls: &[
            Call::Tell(0, 2, Ok(())),
            Call::Tell(4, 5, Err(Refusal::NamesDisagree { place: 5 })),
        ],
    }
}

// X is a, and so it is not c.
fn two_binders() -> Specimen
    ensures { example_of result ≡ two_binders }
{
    Specimen {
        recipes: "(lambda (a) X) (lambda (b) b) (lambda (c) X) (lambda (d) d)",
        names: &["a", "b", "c", "d"],
        places: &[
            place!(bind 0, 1),
            place!(hole 0),
            place!(bind 1, 3),
            place!(name 1),
            place!(bind 2, 5),
            place!(hole 0),
            place!(bind 3, 7),
            place!(name 3),
        ],
        leaves: &[],
        calls: &[
            Call::Tell(0, 2, Ok(())),
            Call::Tell(4, 6, Err(Refusal::NamesDisagree { place: 7 })),
        ],
    }
}

// X is a call of two equal parts, whatever they are.
fn twin_parts() -> Specimen
    ensures { example_of result ≡ twin_parts }
{
    Specimen {
        recipes: "X (Y Y)",
        names: &[],
        places: &[
            place!(hole 0),
            place!(call 2, 3),
            place!(hole 1),
            place!(hole 1),
        ],
        leaves: &[],
        calls: &[
            Call::Tell(0, 1, Ok(())),
            Call::Look(0, &[], Ok(Finding::Label(Label::Call))),
            Call::Look(0, &[0], Ok(Finding::Open)),
            Call::Look(0, &[2], Ok(Finding::Absent)),
        ],
    }
}

// Two spellings of one rate.
fn equal_rates() -> Specimen
    ensures { example_of result ≡ equal_rates }
{
    Specimen {
        recipes: "24 48/2",
        names: &[],
        places: &[place!(leaf 0), place!(leaf 1)],
        leaves: &[
            Rate {
                numerator: 24,
                denominator: 1,
            },
            Rate {
                numerator: 48,
                denominator: 2,
            },
        ],
        calls: &[Call::Tell(0, 1, Ok(()))],
    }
}

// The worked examples. The rules give the answers that they list.
pub fn specimens() -> [Specimen; 8]
    ensures listed { map example_of result ≡ examples }
    ensures right { AllAsListed (map example_of result) }
{
    [
        identity(),
        shadowed(),
        renaming(),
        endless(),
        unused_binders(),
        two_binders(),
        twin_parts(),
        equal_rates(),
    ]
}
