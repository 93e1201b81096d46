// Rates: fractions of whole numbers, as frame rates are given.
ghost use Rattle.std.specs.Prelude.{◌≡◌, ◌+◌, ◌*◌, ◌^◌, ◌<◌, ◌≤◌, cond, Some, None};
ghost use Rattle.std.specs.Char.{is_ascii_digit, digit_value};
ghost use Rattle.std.specs.List.{prefix_len};
ghost use Rattle.leaves.specs.Printing.{rate_text};
ghost use Rattle.leaves.specs.RateReading.{numeral_of, ratio as ratio_of, whole_rate, fraction_rate, decimal_rate, rate_after, rate_of};
ghost use Rattle.leaves.specs.Rates.{SpelledBy, same_rate};
ghost use Rattle.leaves.specs.CrossProducts.{rate_reflexive, rate_symmetric, rate_transitive};
ghost use Rattle.leaves.specs.RatesLemmas.{rate_bounded};

use recipe::Leaf;
use std::fmt;

/// A numerator over a denominator, as spelled: `==` compares the two numbers, `same` what they stand for. It prints as in `24/1`.
/// docs/RULES.md, "Rates".
#[derive(Clone, Copy, Debug, PartialEq, Eq)]
pub struct Rate {
    pub numerator: u32,
    pub denominator: u32,
}

// How many decimal digits the word begins with.
fn leading_digits(word: &[u8]) -> usize
    ensures { result ≡ prefix_len is_ascii_digit word.now }
{
    word.iter().take_while(|byte| byte.is_ascii_digit()).count()
}

// The number that the digits so far write with one more after them, where the byte is a digit.
fn with_digit(value: u64, digit: u8) -> Option<u64>
    requires { value < 10 ^ 17 }
    ensures { result ≡ cond (is_ascii_digit digit) (Some (value * 10 + digit_value digit)) None }
{
    if !digit.is_ascii_digit() {
        return None;
    }
    Some(value * 10 + u64::from(digit - b'0'))
}

// The number that one to `most` decimal digits write; 18 digits fit in 64 bits.
fn numeral(digits: &[u8], most: usize) -> Option<u64>
    requires { most ≤ 18 }
    ensures { result ≡ numeral_of most digits.now }
{
    if !(1..=most).contains(&digits.len()) {
        return None;
    }
    digits
        .iter()
        .try_fold(0, |value, digit| with_digit(value, *digit))
}

// The largest numerator and denominator of a rate that is read.
const LARGEST: u64 = 2_147_483_647;

// The rate of the two numbers, where neither is too large and the denominator is not 0.
fn ratio(numerator: u64, denominator: u64) -> Option<Rate>
    ensures { result ≡ ratio_of numerator denominator }
{
    if numerator > LARGEST || !(1..=LARGEST).contains(&denominator) {
        return None;
    }
    Some(Rate {
        numerator: numerator as u32,
        denominator: denominator as u32,
    })
}

// The rate that a numeral spells.
fn whole_rate(digits: &[u8]) -> Option<Rate>
    ensures { result ≡ whole_rate digits.now }
{
    ratio(numeral(digits, 10)?, 1)
}

// The rate that the numerals on both sides of a slash spell.
fn fraction_rate(numerator: &[u8], denominator: &[u8]) -> Option<Rate>
    ensures { result ≡ fraction_rate numerator.now denominator.now }
{
    ratio(numeral(numerator, 10)?, numeral(denominator, 10)?)
}

// The rate that the numerals on both sides of a point spell.
#[tactic(auto, using(crate::proofs::Digits::decimal_small, crate::proofs::Digits::value_append))]
fn decimal_rate(whole: &[u8], decimals: &[u8]) -> Option<Rate>
    ensures { result ≡ decimal_rate whole.now decimals.now }
{
    let high = numeral(whole, 10)?;
    let low = numeral(decimals, 6)?;
    let scale = 10u64.pow(decimals.len() as u32);
    ratio(high * scale + low, scale)
}

// The rate that the digits spell with what follows them: nothing, a slash or a point and more.
#[tactic(auto, unfolding(crate::specs::RateReading::rate_after))]
fn rate_after(digits: &[u8], rest: &[u8]) -> Option<Rate>
    ensures { result ≡ rate_after digits.now rest.now }
{
    match rest {
        [] => whole_rate(digits),
        [b'/', denominator @ ..] => fraction_rate(digits, denominator),
        [b'.', decimals @ ..] => decimal_rate(digits, decimals),
        _ => None,
    }
}

impl Leaf for Rate {
    const LONGEST: usize = 21;

    ghost LONGEST = { 21 };

    ghost spells = { rate_of };

    ghost equates = { same_rate };

    ghost reflexive = { rate_reflexive };

    ghost symmetric = { rate_symmetric };

    ghost transitive = { rate_transitive };

    ghost bounded = { rate_bounded };

    #[tactic(auto, unfolding(crate::specs::RateReading::rate_of))]
    fn read(word: &[u8]) -> Option<Rate>
        ensures value { result ≡ rate_of word.now }
        ensures spelled { SpelledBy word.now result }
    {
        let (digits, rest) = word.split_at(leading_digits(word));
        rate_after(digits, rest)
    }

    fn same(&self, other: &Rate) -> bool {
        if self.denominator == 0 || other.denominator == 0 {
            return self == other;
        }
        let left = u64::from(self.numerator) * u64::from(other.denominator);
        let right = u64::from(other.numerator) * u64::from(self.denominator);
        left == right
    }
}

impl fmt::Display for Rate {
    ghost output = { λ rate. Some (rate_text rate) };

    fn fmt<W: fmt::Write>(&self, f: &mut fmt::Formatter<W>) -> fmt::Result {
        write!(f, "{}/{}", self.numerator, self.denominator)
    }
}
