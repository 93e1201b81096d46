// The numbers of spellings in a list that is filled from the front on.
ghost use Rattle.std.specs.Prelude.{◌≡◌, ℕ, ◌≤◌, List, length, nat_eq};
ghost use Rattle.std.specs.List.{position_or_len};
ghost use Rattle.recipe.specs.Packing.{Spelling, packed};
ghost use Rattle.notation.specs.Fitting.{with_word};
ghost use Rattle.notation.specs.LentLists.{Listing, NumberedOrFull};
ghost use Rattle.notation.specs.Reading.{room};
ghost use Rattle.notation.specs.Tables.{number};

use recipe::pack;

// The room of a list: its length, but no more than numbers of 32 bits can count.
pub(crate) fn room(length: usize) -> usize
    ensures { result ≡ room length }
{
    length.min(1 << 32)
}

// A spelling of up to eight bytes as one number.
pub(crate) fn spelling(word: &[u8]) -> u64
    ensures { Spelling word.now → result ≡ packed word.now }
{
    pack(word).unwrap_or(0)
}

// The index of the number, or the length of the list where it has none.
fn position(list: &[u64], spelling: u64) -> usize
    ensures { result ≡ position_or_len (λ n. nat_eq n spelling) list.now }
{
    list.iter().take_while(|other| **other != spelling).count()
}

// The number of a spelling in the list of which the first `count` entries are used. One that is not listed comes next, if there is room.
pub(crate) fn number_of(list: &mut [u64], count: &mut usize, spelling: u64) -> Option<u32>
    requires { count.old ≤ room (length list.old) }
    ensures few { count.new ≤ room (length list.new) }
    ensures numbered { (most : ℕ) (ns : List (List ℕ)) (w : List ℕ) → Listing most ns list.old count.old → Spelling w → spelling ≡ packed w → NumberedOrFull most (with_word ns w) (number ns w) list.new count.new result }
{
    let number = position(&list[..*count], spelling);
    if number < *count {
        return Some(number as u32);
    }
    if number == room(list.len()) {
        return None;
    }
    list[number] = spelling;
    *count += 1;
    Some(number as u32)
}
