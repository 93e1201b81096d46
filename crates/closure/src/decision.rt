// What the closures of links and of names say of fillings, for every type of leaves and every sameness of leaves.
ghost use Rattle.std.specs.Prelude.{Bool};
ghost use Rattle.recipe.specs.Sameness.{Sameness};
ghost use Rattle.closure.specs.Causes.{CausesExact};
ghost use Rattle.closure.specs.Decision.{DecisionExact, ValidWellFormed};
ghost use Rattle.closure.specs.OtherLeaves.{LeavesDoNotMatter};
ghost use Rattle.closure.specs.Walks.{WalksExact};

// A valid table, with pairs of its places at one depth, is well formed, and so the other theorems speak of it. Names a and b
// told to be equal are well formed, though no filling exists; a table of one name is not for m = 0, which is not above it.
pub fn valid_tables_are_well_formed<L>()
    ensures { ValidWellFormed L }
{}

// Pairs have a common filling exactly where no linked places clash, no place comes back to itself, and no name place is
// spoiled. X and a name have one, and none of the three holds. Names a and b have none, and both places are spoiled; two
// leaves that are not the same have none, and clash; X and (X '()) have none, and come back to themselves. X told with Y
// have one with any closed recipe in both.
pub fn matching_is_decided<L>()
    ensures { (same : L → L → Bool) → Sameness same → DecisionExact same }
{}

// The places that a refusal carries are found class by class of linked places, and one of the four answers is always right
// where holes are below 512. Of two leaves that are not the same, told to be equal, the lower is found, and the other as its
// partner; of X and (X '()) the place of the first X; of names a and b the higher place. None is found of X and a name.
pub fn causes_are_found<L>()
    ensures { (same : L → L → Bool) → Sameness same → CausesExact same }
{}

// Where a filling exists, a walk finds exactly what the right answer to a look is. After X and (Y Y) it finds a call at X,
// open at the left part of X, and absent inside X; it does not find open at X. After (lambda (a) X) and
// (lambda (y) (lambda (a) y)) it finds the name a inside X, and not y.
pub fn walks_are_exact<L>()
    ensures { (same : L → L → Bool) → Sameness same → WalksExact same }
{}

// Answers depend on leaves by their sameness alone. The table of 24 and 48/2, and the same table over numbers with one number
// for both, have the same right answers; over two numbers that are not the same they do not, and `SameTables` does not hold.
pub fn leaves_do_not_matter<L, M>()
    ensures { (same : L → L → Bool) (other : M → M → Bool) → Sameness same → Sameness other → LeavesDoNotMatter same other }
{}
