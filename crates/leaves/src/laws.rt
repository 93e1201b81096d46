// What the spellings of symbols and rates obey: these functions do nothing, and their contracts are the theorems.
ghost use Rattle.std.specs.Prelude.{◌≡◌, ℕ, ◌↔◌, List, length, true, is_some, Some};
ghost use Rattle.leaves.specs.Printing.{Readable, rate_text, symbol_text};
ghost use Rattle.leaves.specs.RateReading.{rate_of};
ghost use Rattle.leaves.specs.Rates.{longest_rate};
ghost use Rattle.leaves.specs.Symbols.{longest_symbol, symbol_of};

use crate::rate::Rate;
use crate::symbol::Symbol;
use recipe::Leaf;

/// Some word of exactly the longest length is read: `'abcdefgh` as a symbol, `2147483647/2147483647` as a rate. That no longer
/// word is read is the law `bounded` of the trait `Leaf`: `'abcdefghi` is no symbol.
pub fn longest_words_are_read()
    ensures symbol_length { length longest_symbol ≡ ⟦<Symbol as Leaf>⟧.LONGEST }
    ensures symbol { is_some (symbol_of longest_symbol) ≡ true }
    ensures rate_length { length longest_rate ≡ ⟦<Rate as Leaf>⟧.LONGEST }
    ensures rate { is_some (rate_of longest_rate) ≡ true }
{}

/// A symbol that is read prints as the word that it was read from, as `'lift`. The symbol of the number 0 prints as a lone
/// apostrophe, which is not read.
pub fn symbols_are_printed()
    ensures { (word : List ℕ) (x : Symbol) → symbol_of word ≡ Some x → symbol_text x ≡ word }
{}

/// What a rate prints as is read back as that rate, with the same two numbers, exactly where both are within the limits of reading:
/// 24 over 1 prints as `24/1`, and 5 over 0 as `5/0`, which is not read.
pub fn rates_are_printed()
    ensures { (x : Rate) → (rate_of (rate_text x) ≡ Some x) ↔ Readable x }
{}
