// What the rules say of answers, for every type of leaves and every sameness test.
ghost use Rattle.std.specs.Prelude.{Bool};
ghost use Rattle.recipe.specs.AnswerLaws.{AcceptedSatisfiable, LooksExact, LooksOnce, TellsExact, TellsOnce};
ghost use Rattle.recipe.specs.Promise.{PromiseKept};

// A right answer says exactly what holds: a tell that gets as far as matching is accepted exactly where a filling exists,
// and refused with 14, 15 or 16 exactly where that cause is the first to apply; a look finds a label exactly where all
// satisfying fillings have it, and absent exactly where none has the spot. X and a name are accepted, two leaves that
// are not the same give 14, X and (X '()) give 15, and a name a and a name b give 16.
pub fn answers_are_exact<L>()
    ensures tells { (same : L → L → Bool) → TellsExact same }
    ensures looks { (same : L → L → Bool) → LooksExact same }
{}

// At most one answer to a tell is right, and at most one to a look after pairs that a filling satisfies. To tell a name a
// and a name b the right answer is refusal 16; to look at a recipe that is a hole, before any tell, it is open.
pub fn answers_are_unique<L>()
    ensures tells { (same : L → L → Bool) → TellsOnce same }
    ensures looks { (same : L → L → Bool) → LooksOnce same }
{}

// One filling satisfies all accepted tells of a right history: after X and (Y Y) is accepted, X filled with ('() '()) and
// Y with nil. A history in which X and (X '()) is accepted is not right.
pub fn accepted_tells_have_a_filling<L>()
    ensures { (same : L → L → Bool) → AcceptedSatisfiable same }
{}

// A right history keeps the promise: each tell of places of equal depth is accepted exactly where one filling satisfies it
// and all tells accepted before it, each look gives what all such fillings have, and there always is such a filling.
pub fn right_histories_keep_the_promise<L>()
    ensures { (same : L → L → Bool) → PromiseKept same }
{}
