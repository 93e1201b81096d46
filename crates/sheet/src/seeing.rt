// What is found at one place, as it is at another. These functions write nothing.
ghost use Rattle.std.specs.Prelude.{◌≡◌, ℕ, ◌<◌, ◌^◌, List, Some};
ghost use Rattle.recipe.specs.Fillings.{Pair};
ghost use Rattle.recipe.specs.declared.labels.Finding.{Finding as AnyFinding};
ghost use Rattle.closure.specs.Walks.{SeenAt, found_above, label_above};
ghost use Rattle.sheet.specs.Solved.{Solved, written_table};
ghost use Rattle.sheet.specs.Spots.{FindsName, LevelBelow};

use crate::answers::joined_name;
use recipe::{Finding, Label};

// A label in a part, seen from above the binder that the part stands under.
fn label_above(binder: usize, label: Label) -> Label
    requires { LevelBelow (2 ^ 63) (AnyFinding.Label label) }
    ensures { result ≡ label_above binder label }
{
    match label {
        Label::Nil => Label::Nil,
        Label::Leaf(number) => Label::Leaf(number),
        Label::Name(name) => if name == binder {
            Label::Local(0)
        } else {
            Label::Name(name)
        },
        Label::Local(level) => Label::Local(level + 1),
        Label::Bind => Label::Bind,
        Label::Call => Label::Call,
    }
}

// What is found in a part, seen from above the binder that the part stands under, or under none.
pub(crate) fn found_above(binder: Option<usize>, found: Finding) -> Finding
    requires { LevelBelow (2 ^ 63) found }
    ensures { result ≡ found_above binder found }
{
    let Some(name) = binder else {
        return found;
    };
    match found {
        Finding::Label(label) => Finding::Label(label_above(name, label)),
        Finding::Absent => Finding::Absent,
        Finding::Open => Finding::Open,
    }
}

// The free name that is found, if that is what is found.
fn free_name(found: Finding) -> Option<usize>
    ensures { FindsName found result }
{
    match found {
        Finding::Label(Label::Name(name)) => Some(name),
        Finding::Label(Label::Nil | Label::Leaf(_) | Label::Local(_) | Label::Bind | Label::Call) =>
            None,
        Finding::Absent | Finding::Open => None,
    }
}

// What is found at the place `shown`, seen from the linked place `p`: a name is a name of `p` that is joined
// with it.
pub(crate) fn seen_from(
    memory: &[u32],
    size: usize,
    names: usize,
    shown: usize,
    p: usize,
    found: Finding,
) -> Finding
    requires solved { (told : List Pair) × Solved size names told memory.now }
    requires first { shown < size }
    requires second { p < size }
    requires name { (x : ℕ) → FindsName found (Some x) → x < names }
    ensures { (told : List Pair) → Solved size names told memory.now → (seen : AnyFinding)
        → SeenAt (written_table size memory.now) names told shown p found seen
        → SeenAt (written_table size memory.now) names told shown p found result }
{
    match free_name(found) {
        Some(x) => match joined_name(memory, size, names, shown, x, p) {
            Some(y) => Finding::Label(Label::Name(y)),
            None => found,
        },
        None => found,
    }
}
