// What a kind of leaves is: a set of values, the words that spell them, and when two are the same.
ghost use Rattle.std.specs.Prelude.{◌≡◌, ℕ, ◌<◌, Bool, true, List, length, None, Option};

pub trait Leaf: Copy {
    // The length, in bytes, of the longest word that spells a leaf.
    const LONGEST: usize;

    ghost LONGEST: { ℕ };

    // The leaf that a word spells, if it spells one.
    ghost spells: { List ℕ → Option Self };

    // Whether two leaves are the same.
    ghost equates: { Self → Self → Bool };

    // The leaf that `word` spells, or none.
    fn read(word: &[u8]) -> Option<Self>
        ensures { result ≡ spells word.now };

    // Whether the two leaves are the same.
    fn same(&self, other: &Self) -> bool
        ensures { result ≡ equates self.now other.now };

    // The length of the longest word, as a call.
    final fn longest_word() -> usize
        ensures { result ≡ LONGEST }
    {
        Self::LONGEST
    }

    // Sameness is an equivalence, over all values of the type.
    ghost reflexive: { (x : Self) → equates x x ≡ true };

    ghost symmetric: { (x y : Self) → equates x y ≡ true → equates y x ≡ true };

    ghost transitive: { (x y z : Self) → equates x y ≡ true → equates y z ≡ true → equates x z ≡ true };

    // A word that is longer than the longest spells nothing.
    ghost bounded: { (word : List ℕ) → LONGEST < length word → spells word ≡ None };
}
