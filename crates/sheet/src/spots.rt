// What the records of a table say of one place.
ghost use Rattle.std.specs.Prelude.{◌≡◌, ◌↔◌, nat_eq, true};
ghost use Rattle.std.specs.List.{range_with_len};
ghost use Rattle.recipe.specs.Links.{kind_of};
ghost use Rattle.recipe.specs.Numbering.{number_of};
ghost use Rattle.closure.specs.Walks.{form_label};
ghost use Rattle.nodes.specs.Opposed.{HasRow};
ghost use Rattle.nodes.specs.Records.{written_form};
ghost use Rattle.sheet.specs.Spots.{FindsPart};

use recipe::{Kind, Label};

// Whether a place is a hole.
pub(crate) fn is_hole(records: &[u32], p: usize) -> bool
    requires { HasRow records.now p }
    ensures { (result ≡ true) ↔ (kind_of (written_form records.now p) ≡ 3) }
{
    records[8 * p] == Kind::Hole as u32
}

// The number of a leaf, if the list of `leaves` leaves is longer than that.
fn listed(number: usize, leaves: usize) -> Option<usize>
    ensures { result ≡ number_of nat_eq (range_with_len 0 leaves) number }
{
    if number < leaves { Some(number) } else { None }
}

// The label of a place that is no hole; a hole has that of nil.
pub(crate) fn label_at(records: &[u32], leaves: usize, p: usize) -> Label
    requires { HasRow records.now p }
    ensures { result
        ≡ form_label (number_of nat_eq (range_with_len 0 leaves)) (written_form records.now p) }
{
    let number = records[8 * p + 1] as usize;
    match Kind::try_from(records[8 * p]) {
        Ok(Kind::Leaf) => Label::Leaf(listed(number, leaves)),
        Ok(Kind::Name) => Label::Name(number),
        Ok(Kind::Bind) => Label::Bind,
        Ok(Kind::Call) => Label::Call,
        Ok(Kind::Nil | Kind::Hole) | Err(_) => Label::Nil,
    }
}

// The part of a place at a step, with the name of the binder that it stands under, if it stands under one.
pub(crate) fn part_at(records: &[u32], p: usize, step: u8) -> Option<(usize, Option<usize>)>
    requires { HasRow records.now p }
    ensures { FindsPart (written_form records.now p) step result }
{
    let kind = records[8 * p];
    let first = records[8 * p + 1] as usize;
    let second = records[8 * p + 2] as usize;
    if kind == Kind::Bind as u32 {
        return if step == 2 {
            Some((second, Some(first)))
        } else {
            None
        };
    }
    if kind == Kind::Call as u32 {
        return match step {
            0 => Some((first, None)),
            1 => Some((second, None)),
            _ => None,
        };
    }
    None
}
