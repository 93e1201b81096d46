// What equality in scopes obeys, for every type of leaves and every sameness of leaves.
ghost use Rattle.std.specs.Prelude.{Bool};
ghost use Rattle.recipe.specs.EqualityLaws.{Equivalence, BindersRename, NoneAtCovered, CoveredRename};
ghost use Rattle.recipe.specs.Sameness.{Sameness};

// Equality in scopes is reflexive, symmetric and transitive: (lambda (a) a), (lambda (b) b) and (lambda (c) c) are equal,
// each to each. A free a and a free b are not equal, in either order.
pub fn equality_is_an_equivalence<L>()
    ensures { (same : L → L → Bool) → Sameness same → Equivalence same }
{}

// A binder and its occurrences may be renamed to a name that occurs nowhere in the body: (lambda (a) a) and (lambda (b) b)
// are equal. (lambda (a) b) and (lambda (b) b) are not, and b occurs in the body there.
pub fn binders_rename<L>()
    ensures { (same : L → L → Bool) → Sameness same → BindersRename same }
{}

// No name has the inner number of a covered binder, one whose name stands further in: in the scope a, a position 1 is
// covered, and a has the number 0. In the scope a, b position 1 is not covered, and b has the number 1.
pub fn none_at_covered()
    ensures { NoneAtCovered }
{}

// So the outer of two binders of one name may be renamed to any name that is not free below it, and the body stays as it is:
// (lambda (a) (lambda (a) a)) and (lambda (b) (lambda (a) a)) are equal. (lambda (a) (lambda (a) b)) and
// (lambda (b) (lambda (a) b)) are not, and b is free below the outer binder there.
pub fn covered_binders_rename<L>()
    ensures { (same : L → L → Bool) → Sameness same → CoveredRename same }
{}
