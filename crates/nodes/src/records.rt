// The records of a table in lent words.
ghost use Rattle.std.specs.Prelude.{◌≡◌, ◌≤◌, Some, length, nat_eq};
ghost use Rattle.std.specs.List.{range_with_len};
ghost use Rattle.recipe.specs.Numbering.{number_of};
ghost use Rattle.recipe.specs.Tables.{form_by, form_of, table_of};
ghost use Rattle.recipe.specs.Validity.{Fits, Ordered, Valid};
ghost use Rattle.closure.specs.OtherLeaves.{SameTables};
ghost use Rattle.nodes.specs.Records.{ChangesOnly, FormWord, HasRows, Writes, with_numbers, written};

use recipe::{Kind, Leaf, Place, leaf_number};

// The second number of a record: the number of the first leaf that is the same, for a leaf, and else as it is.
fn number_or_a<L: Leaf>(place: &Place, leaves: &[L]) -> u32
    requires few { length leaves.now ≤ 512 }
    requires fits { Fits (length leaves.now) place.now }
    ensures { form_by (Some result) result place.now.b place.now.kind ≡ with_numbers (number_of L.equates leaves.now) (form_of leaves.now place.now) }
{
    if let Ok(Kind::Leaf) = Kind::try_from(place.kind) {
        leaf_number(leaves, &leaves[place.a as usize]).unwrap_or(0) as u32
    } else {
        place.a
    }
}

// Writes the record of each place, a leaf by the number of the first leaf of the list that is the same. What is written is a
// table in order too, whose leaves are the numbers, and are equal where the leaves are the same. The other words of a record
// are left as they are, and so are those past the records.
pub fn write_records<L: Leaf>(words: &mut [u32], places: &[Place], leaves: &[L])
    requires rows { HasRows (length places.now) words.old }
    requires valid { Valid places.now leaves.now }
    ensures writes { Writes (number_of L.equates leaves.now) (table_of places.now leaves.now) words.new }
    ensures only { ChangesOnly (FormWord (length places.now)) words.old words.new }
    ensures long { length words.new ≡ length words.old }
    ensures ordered { Ordered (written (length places.now) words.new) }
    ensures same { SameTables L.equates nat_eq (table_of places.now leaves.now) (written (length places.now) words.new) leaves.now (range_with_len 0 (length leaves.now)) }
{
    for (p, place) in places.iter().enumerate() {
        words[8 * p] = place.kind;
        words[8 * p + 1] = number_or_a(place, leaves);
        words[8 * p + 2] = place.b;
    }
}
