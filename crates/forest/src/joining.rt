// Joining two nodes, and with them the parts of what is joined.
ghost use Rattle.std.specs.Prelude.{◌≡◌, ◌<◌};
ghost use Rattle.forest.specs.Exact.{OneMore};
ghost use Rattle.forest.specs.Rows.{IsNode, Rows, parent};
ghost use Rattle.forest.specs.Steps.{Joins, Links};

use crate::rows::{find, part_of, shorten};

// Puts the root `high` under the lower root `low`, which keeps its part of each side, or takes that of `high`.
fn link(rows: &mut [u32], low: usize, high: usize)
    requires rows { Rows rows.old }
    requires node { IsNode rows.old high }
    requires lower { low < high }
    requires low_root { parent rows.old low ≡ low }
    requires high_root { parent rows.old high ≡ high }
    ensures { Links low high rows.old rows.new }
{
    for side in 0..3 {
        if part_of(rows, low, side).is_none() {
            rows[4 * low + 1 + side] = rows[4 * high + 1 + side];
        }
    }
    rows[4 * high] = low as u32;
}

// Joins two nodes, and the parts of their classes, and the parts of those.
fn join_classes(rows: &mut [u32], u: usize, v: usize)
    requires rows { Rows rows.old }
    requires first { IsNode rows.old u }
    requires second { IsNode rows.old v }
    ensures { Joins u v rows.old rows.new }
{
    shorten(rows, u);
    shorten(rows, v);
    let first = find(rows, u);
    let second = find(rows, v);
    if first == second {
        return;
    }
    let low = first.min(second);
    let high = first.max(second);
    link(rows, low, high);
    for side in 0..3 {
        if let Some(right) = part_of(rows, high, side) {
            if let Some(left) = part_of(rows, low, side) {
                join_classes(rows, left, right);
            }
        }
    }
}

// Joins two nodes, and with them the parts of their classes: what was exact for some parts and pairs is exact with one pair more.
pub fn join(rows: &mut [u32], u: usize, v: usize)
    requires rows { Rows rows.old }
    requires first { IsNode rows.old u }
    requires second { IsNode rows.old v }
    ensures { OneMore u v rows.old rows.new }
{
    join_classes(rows, u, v);
}
