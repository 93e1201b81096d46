// The lowest name of one place that is joined with a name of another.
ghost use Rattle.std.specs.Prelude.{◌≡◌, ℕ, suc, ◌+◌, ◌*◌, ◌<◌, ◌≤◌, List, length};
ghost use Rattle.recipe.specs.Fillings.{Pair};
ghost use Rattle.recipe.specs.Tables.{Table};
ghost use Rattle.forest.specs.Rows.{Rows};
ghost use Rattle.nodes.specs.JoinedNames.{FindsJoined};
ghost use Rattle.nodes.specs.MisnamedRoots.{name_root};
ghost use Rattle.nodes.specs.NameClasses.{RootsJoin, SomeRootsJoin};
ghost use Rattle.nodes.specs.Searches.{LowestBelow};

use crate::misnamed::root_of_name;

// The lowest name of `q` that has the root of the name `x` of `p`, if any has.
fn name_with_root(names_rows: &[u32], names: usize, p: usize, x: usize, q: usize) -> Option<usize>
    requires first { p < 512 }
    requires second { q < 512 }
    requires few { names ≤ 64 }
    requires forest { Rows names_rows.now }
    requires first_nodes { 4 * suc (p * names + names) ≤ length names_rows.now }
    requires second_nodes { 4 * suc (q * names + names) ≤ length names_rows.now }
    requires name { x < names }
    ensures { LowestBelow names (λ y. name_root names_rows.now names q y ≡ name_root names_rows.now names p x) result }
{
    let root = root_of_name(names_rows, names, p, x);
    for y in 0..names {
        if root_of_name(names_rows, names, q, y) == root {
            return Some(y);
        }
    }
    None
}

// The lowest name of `q` that is joined with the name `x` of `p`, if one is. Writes nothing.
pub fn joined_name(
    names_rows: &[u32],
    size: usize,
    names: usize,
    p: usize,
    x: usize,
    q: usize,
) -> Option<usize>
    requires few_places { size ≤ 512 }
    requires few { names ≤ 64 }
    requires forest { Rows names_rows.now }
    requires long { length names_rows.now ≡ 4 * suc (names * size) }
    requires first { p < size }
    requires second { q < size }
    requires name { x < names }
    requires roots { SomeRootsJoin size names names_rows.now }
    ensures { (T : Table ℕ) (told : List Pair) → T.size ≡ size → RootsJoin T names told names_rows.now → FindsJoined T names told p x q result }
{
    name_with_root(names_rows, names, p, x, q)
}
