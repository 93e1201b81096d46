// What comes of texts.
use listing::listing;
use recipe::Leaf;

// Whether a text is listed by these lines, and the rest of the buffer is zeroed.
fn is_listed<L: Leaf>(text: &[u8], lines: &[u8], leaves: &mut [L]) -> bool {
    let mut out = [1; 4096];
    let written = listing(text, leaves, &mut out);
    &out[..written] == lines && out[written..].iter().all(|byte| *byte == 0)
}

// The index of the first text that is not listed by its lines.
pub(crate) fn first_wrong<L: Leaf>(texts: &[(&str, &str)], leaves: &mut [L]) -> Option<usize> {
    for (i, (text, lines)) in texts.iter().enumerate() {
        if !is_listed(text.as_bytes(), lines.as_bytes(), leaves) {
            return Some(i);
        }
    }
    None
}
