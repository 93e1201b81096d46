// Tables of texts with their reports.
use read_report::report_on;
use std::alloc::{AllocError, Global};

// The first text that has another report than the one beside it, if there is one.
pub(crate) fn first_misread<'t>(
    heap: Global,
    texts: &[(&'t str, &str)],
) -> Result<Option<&'t str>, AllocError> {
    for (text, expected) in texts {
        let report = report_on(heap, text.as_bytes())?;
        if report.as_slice() != expected.as_bytes() {
            return Ok(Some(*text));
        }
    }
    Ok(None)
}
