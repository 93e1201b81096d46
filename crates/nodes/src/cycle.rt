// Finding a place that comes back to itself through parts.
ghost use Rattle.std.specs.Prelude.{◌≡◌, ℕ, ◌*◌, ◌<◌, ◌≤◌, ◌↔◌, List, length, true, false, slice_index};
ghost use Rattle.recipe.specs.Fillings.{Pair};
ghost use Rattle.recipe.specs.Tables.{Form, Table};
ghost use Rattle.forest.specs.Rows.{IsNode, Rows};
ghost use Rattle.nodes.specs.Cycles.{FindsCycle, SomeTableJoined};
ghost use Rattle.nodes.specs.Searches.{AllMiss, AllPassed, Leads, LowestBelow, Misses, NoneReturns, OnWay, RootReturns, SomeCycle};
ghost use Rattle.nodes.specs.PlaceClasses.{PlacesJoined, RootsLink};

use forest::{find, part_of};

// The marks of a search: a root was not seen, or is on the way, or is done.
const NOT_SEEN: u32 = 0;

const ON_WAY: u32 = 1;

const DONE: u32 = 2;

// Whether a way from a root comes back to a root that is on the way. If none does, what is seen is done.
fn closes_cycle(rows: &[u32], marks: &mut [u32], root: usize) -> bool
    requires forest { Rows rows.now }
    requires node { IsNode rows.now root }
    requires room { length rows.now ≤ 4 * length marks.old }
    requires blank { slice_index marks.old root ≡ 0 }
    requires none { NoneReturns rows.now marks.old }
    requires way { OnWay rows.now marks.old root }
    ensures cycle { result ≡ true → SomeCycle rows.now }
    ensures passed { result ≡ false → AllPassed rows.now root marks.old marks.new }
{
    marks[root] = ON_WAY;
    for side in 0..3 {
        if let Some(part) = part_of(rows, root, side) {
            let next = find(rows, part);
            if marks[next] == ON_WAY {
                return true;
            }
            if marks[next] == NOT_SEEN && closes_cycle(rows, marks, next) {
                return true;
            }
        }
    }
    marks[root] = DONE;
    false
}

// Whether some node leads to itself, by one pass.
fn has_cycle(rows: &[u32], size: usize, marks: &mut [u32]) -> bool
    requires forest { Rows rows.now }
    requires long { length rows.now ≡ 4 * size }
    requires room { size ≤ length marks.old }
    ensures { (result ≡ true) ↔ SomeCycle rows.now }
{
    marks.fill(NOT_SEEN);
    for p in 0..size {
        let root = find(rows, p);
        if marks[root] == NOT_SEEN && closes_cycle(rows, marks, root) {
            return true;
        }
    }
    false
}

// Whether one step or more lead from a root to the goal. If none do, what is seen is done.
fn leads_to(rows: &[u32], marks: &mut [u32], root: usize, goal: usize) -> bool
    requires forest { Rows rows.now }
    requires node { IsNode rows.now root }
    requires room { length rows.now ≤ 4 * length marks.old }
    requires blank { slice_index marks.old root ≡ 0 }
    requires misses { Misses rows.now goal marks.old }
    ensures leads { result ≡ true → Leads rows.now root goal }
    ensures passed { result ≡ false → AllMiss rows.now goal root marks.old marks.new }
{
    marks[root] = ON_WAY;
    for side in 0..3 {
        if let Some(part) = part_of(rows, root, side) {
            let next = find(rows, part);
            if next == goal {
                return true;
            }
            if marks[next] == NOT_SEEN && leads_to(rows, marks, next, goal) {
                return true;
            }
        }
    }
    marks[root] = DONE;
    false
}

// Whether the root of a place leads to itself.
fn root_returns(rows: &[u32], marks: &mut [u32], p: usize) -> bool
    requires forest { Rows rows.now }
    requires node { IsNode rows.now p }
    requires room { length rows.now ≤ 4 * length marks.old }
    ensures { (result ≡ true) ↔ RootReturns rows.now p }
{
    marks.fill(NOT_SEEN);
    let root = find(rows, p);
    leads_to(rows, marks, root, root)
}

// The lowest place whose root leads to itself, if any does, by a search from each place.
fn search_cycle(rows: &[u32], size: usize, marks: &mut [u32]) -> Option<usize>
    requires forest { Rows rows.now }
    requires long { length rows.now ≡ 4 * size }
    requires room { size ≤ length marks.old }
    ensures { LowestBelow size (RootReturns rows.now) result }
{
    for p in 0..size {
        if root_returns(rows, marks, p) {
            return Some(p);
        }
    }
    None
}

// The lowest place that comes back to itself through parts, if any does. Where none does, that costs one pass, which marks
// roots in the lent `marks`.
pub fn find_cycle(rows: &[u32], size: usize, marks: &mut [u32]) -> Option<usize>
    requires few { size ≤ 512 }
    requires forest { Rows rows.now }
    requires long { length rows.now ≡ 4 * size }
    requires room { size ≤ length marks.old }
    requires joined { SomeTableJoined size rows.now }
    ensures { (T : Table ℕ) (told : List Pair) → T.size ≡ size → ((p : ℕ) → T.size ≤ p → T.form p ≡ Form.nil) → PlacesJoined T told rows.now → RootsLink T told rows.now → FindsCycle T told result }
{
    if !has_cycle(rows, size, marks) {
        return None;
    }
    search_cycle(rows, size, marks)
}
