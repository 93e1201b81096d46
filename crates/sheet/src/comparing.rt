// Whether the recipes at two places of a solved memory are equal. It writes nothing.
ghost use Rattle.std.specs.Prelude.{ℕ, List, nat_eq};
ghost use Rattle.recipe.specs.Alike.{Alikes};
ghost use Rattle.recipe.specs.Fillings.{Pair};
ghost use Rattle.sheet.specs.Solved.{Solved, written_table};

use crate::layout::records_of;
use recipe::Refusal;

// Whether the recipes at two places are equal, each in its scope, or why that is not asked. A table without places has no
// records.
pub(crate) fn alike(memory: &[u32], size: usize, p: usize, q: usize) -> Result<bool, Refusal>
    requires solved { (names : ℕ) × (told : List Pair) × Solved size names told memory.now }
    ensures { Alikes nat_eq (written_table size memory.now) p q result }
{
    if p >= size {
        return Err(Refusal::NoSuchPlace { place: p });
    }
    nodes::alike(records_of(memory, size), size, p, q)
}
