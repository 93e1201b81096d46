// What the rules say of the answer of `alike`, for every type of leaves and every sameness test.
ghost use Rattle.std.specs.Prelude.{Bool};
ghost use Rattle.recipe.specs.AlikeLaws.{AlikesExact, AlikesOnce};

// At most one answer is right. Of two places of one depth without holes it is yes exactly where every filling makes them
// equal in their scopes, and no exactly where none does; where a hole is at or under one of them it is refusal 18 with the
// lowest. (lambda (a) a) and (lambda (b) b) are alike, (lambda (a) a) and (lambda (b) c) are not, and X and X are refused.
pub fn alike_is_exact<L>()
    ensures once { (same : L → L → Bool) → AlikesOnce same }
    ensures exact { (same : L → L → Bool) → AlikesExact same }
{}
