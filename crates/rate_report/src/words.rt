// The words of a text: its runs of bytes that are no white space.
ghost use Rattle.std.specs.Prelude.{◌≡◌, not};
ghost use Rattle.std.specs.Iterator.{YieldsFirstBy, item_count};
ghost use Rattle.std.specs.List.{prefix_len};
ghost use Rattle.rate_report.specs.Words.{white, words};

pub(crate) fn is_white(byte: u8) -> bool
    ensures { result ≡ white byte }
{
    matches!(byte, b' ' | b'\t' | b'\n' | b'\r')
}

// How many bytes of white space the text begins with.
fn white_length(text: &[u8]) -> usize
    ensures { result ≡ prefix_len white text.now }
{
    text.iter().take_while(|byte| is_white(**byte)).count()
}

// How many other bytes the text begins with.
fn word_length(text: &[u8]) -> usize
    ensures { result ≡ prefix_len (λ b. not (white b)) text.now }
{
    text.iter().take_while(|byte| !is_white(**byte)).count()
}

// The words of a text, in order.
#[derive(Drop)]
pub(crate) struct Words<'t> {
    rest: &'t [u8],
}

impl<'t> Words<'t> {
    pub(crate) fn new(text: &'t [u8]) -> Words<'t>
        ensures { result.rest.now ≡ text.now }
    {
        Words { rest: text }
    }
}

impl<'t> Iterator for Words<'t> {
    type Item = &'t [u8];

    ghost next_gives = { YieldsFirstBy (λ w. w.now) (λ s. words s.rest.now) };

    ghost remaining = { item_count (λ s. words s.rest.now) };

    fn next(&mut self) -> Option<&'t [u8]> {
        let (_, begun) = self.rest.split_at(white_length(self.rest));
        let (word, rest) = begun.split_at(word_length(begun));
        self.rest = rest;
        if word.is_empty() { None } else { Some(word) }
    }
}
