// How findings are printed.
use recipe::{Finding, Label};
use std::test::Fail;

const PRINTED: [(Finding, &str); 9] = [
    (Finding::Label(Label::Nil), "nil"),
    (Finding::Label(Label::Leaf(Some(3))), "leaf 3"),
    (Finding::Label(Label::Leaf(None)), "leaf"),
    (Finding::Label(Label::Name(0)), "name 0"),
    (Finding::Label(Label::Local(1)), "local 1"),
    (Finding::Label(Label::Bind), "bind"),
    (Finding::Label(Label::Call), "call"),
    (Finding::Absent, "absent"),
    (Finding::Open, "open"),
];

#[test]
fn findings_are_printed_as_words_and_numbers(rt: HostRuntime) -> Result<(), Fail> {
    for (finding, expected) in PRINTED {
        let printed = format!(in rt.alloc(); "{finding}")?;
        assert_eq!(rt; printed.as_str(), expected);
    }
    Ok(())
}
