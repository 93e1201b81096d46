// Short spellings as numbers.
ghost use Rattle.std.specs.Prelude.{◌≡◌};
ghost use Rattle.recipe.specs.Packing.{packed, packed_if_short, PackedOnce};

// Eight bytes as one number, the first byte highest.
#[tactic(auto, unfolding(crate::specs::Packing::packed))]
fn joined(word: [u8; 8]) -> u64
    ensures { result ≡ packed word }
{
    u64::from_be_bytes(word)
}

// Up to eight bytes in one number, the first byte highest, the bytes that are missing 0; none for more than eight.
pub fn pack(bytes: &[u8]) -> Option<u64>
    ensures value { result ≡ packed_if_short bytes.now }
    ensures once { PackedOnce bytes.now }
{
    if bytes.len() > 8 {
        return None;
    }
    let mut word = [0; 8];
    word[..bytes.len()].copy_from_slice(bytes);
    Some(joined(word))
}
