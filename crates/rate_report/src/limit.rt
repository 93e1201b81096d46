// What is listed of an input that is too long.
ghost use Rattle.std.specs.Prelude.{◌≡◌, ◌≤◌, length};
ghost use Rattle.rate_report.specs.Limit.{last_break, kept as kept_of};

use crate::words::is_white;

// The last place of the text that is its start or follows white space.
fn word_start(text: &[u8]) -> usize
    ensures start { result ≡ last_break text.now (length text.now) }
    ensures within { result ≤ length text.now }
{
    text.iter()
        .rposition(|byte| is_white(*byte))
        .map_or(0, |last| last + 1)
}

// The longest front of the input, of at most `limit` bytes, past which no word goes on.
#[tactic(auto, using(crate::proofs::Prefixes::kept_cases))]
pub(crate) fn kept(input: &[u8], limit: usize) -> &[u8]
    ensures { result.now ≡ kept_of limit input.now }
{
    match input.get(limit) {
        None => input,
        Some(byte) if is_white(*byte) => &input[..limit],
        Some(_) => &input[..word_start(&input[..limit])],
    }
}
