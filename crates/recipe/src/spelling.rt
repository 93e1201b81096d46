// Spellings that are packed into numbers, printed.
ghost use Rattle.std.specs.Prelude.{◌≡◌, ◌≤◌, ℕ, List, length, Some};
ghost use Rattle.std.specs.Int.{w64, to_be_bytes};
ghost use Rattle.std.specs.List.{prefix_len, take_while};
ghost use Rattle.std.specs.Str.{IsUtf8};
ghost use Rattle.recipe.specs.Packing.{Spelling, is_filled, packed, spelling_text, unpacked};

use std::fmt;

/// A number that `pack` made of a spelling. It is printed as that spelling: its bytes, the highest first, without the zeros
/// that fill it. Where these are no UTF-8 text, the number is printed in hexadecimal. docs/RULES.md, "Packing".
#[derive(Clone, Copy, Debug, PartialEq, Eq)]
pub struct PackedSpelling(pub u64);

// One number as eight bytes, the highest first.
fn parted(packed: u64) -> [u8; 8]
    ensures { result ≡ to_be_bytes w64 packed }
{
    packed.to_be_bytes()
}

// Where the first zero stands, or the length.
fn first_zero(bytes: &[u8]) -> usize
    ensures value { result ≡ prefix_len is_filled bytes.now }
    ensures within { result ≤ length bytes.now }
{
    bytes.iter().take_while(|byte| **byte != 0).count()
}

/// The bytes before the first zero: of the eight bytes of a packed spelling, the spelling. docs/RULES.md, "Packing".
pub fn before_zero(bytes: &[u8]) -> &[u8]
    ensures { result.now ≡ take_while is_filled bytes.now }
{
    &bytes[..first_zero(bytes)]
}

impl fmt::Display for PackedSpelling {
    ghost output = { λ spelling. Some (spelling_text spelling.0) };

    #[tactic(auto, unfolding(crate::specs::Packing::unpacked), using(crate::proofs::Printed::as_text))]
    fn fmt<W: fmt::Write>(&self, f: &mut fmt::Formatter<W>) -> fmt::Result {
        let bytes = parted(self.0);
        match str::from_utf8(before_zero(&bytes)) {
            Ok(text) => f.write_str(text),
            Err(_) => write!(f, "0x{:x}", self.0),
        }
    }
}

/// What `pack` gives for a spelling without a zero byte has that spelling's bytes, and prints as it where it is UTF-8: what it
/// gives for `lift` prints as `lift`. A spelling with a zero byte, as `a` and a zero, would come back without it.
pub fn spellings_are_printed()
    ensures unpacked { (word : List ℕ) → Spelling word → unpacked (packed word) ≡ word }
    ensures printed { (word : List ℕ) → Spelling word → IsUtf8 word → spelling_text (packed word) ≡ word }
{}
