// Data of the Scheme report: what the notation keeps of it, and what it refuses.
use crate::reports::first_misread;
use std::test::Fail;

const DATA: [(&str, &str); 46] = [
    // kept
    ("'a", "0 leaf 0 'a\n"),
    ("(quote a)", "0 call 1 2\n1 name 0 quote\n2 name 1 a\n"),
    ("(car 'a)", "0 call 1 2\n1 name 0 car\n2 leaf 0 'a\n"),
    ("(lambda (x) x)", "0 bind 0 1 x\n1 name 0 x\n"),
    ("'()", "0 nil\n"),
    // strings, comments, booleans, characters, vectors and labels have no class
    ("\"a\"", "text refused 21 0\n"),
    ("a \"b c\"", "text refused 21 2\n"),
    ("; a", "text refused 21 0\n"),
    ("a ; b", "text refused 21 2\n"),
    ("#;a b", "text refused 21 0\n"),
    ("#|a|# b", "text refused 21 0\n"),
    ("#t", "text refused 21 0\n"),
    ("#false", "text refused 21 0\n"),
    ("#\\a", "text refused 21 0\n"),
    ("#(a b)", "text refused 21 0\n"),
    ("#u8(1 2)", "text refused 21 0\n"),
    ("#0=a", "text refused 21 0\n"),
    // signs, dots, bars and other symbols have none either
    ("-5", "text refused 21 0\n"),
    ("+5", "text refused 21 0\n"),
    ("+", "text refused 21 0\n"),
    ("-", "text refused 21 0\n"),
    (".5", "text refused 21 0\n"),
    ("...", "text refused 21 0\n"),
    ("|a|", "text refused 21 0\n"),
    ("set!", "text refused 21 0\n"),
    ("pair?", "text refused 21 0\n"),
    ("(+ a b)", "text refused 21 1\n"),
    ("(a . b)", "text refused 21 3\n"),
    // brackets and quasi-quotes
    ("[a b]", "text refused 21 0\n"),
    ("(a b]", "text refused 21 3\n"),
    ("{a}", "text refused 21 0\n"),
    ("`a", "text refused 21 0\n"),
    ("`(a b)", "text refused 21 0\n"),
    (",a", "text refused 21 0\n"),
    ("(a ,@b)", "text refused 21 3\n"),
    ("'(a b)", "text refused 21 0\n"),
    // unsigned numbers and quoted data are leaf words, which are no symbols
    ("5", "text refused 25 0\n"),
    ("1.5", "text refused 25 0\n"),
    ("1e3", "text refused 25 0\n"),
    ("'5", "text refused 25 0\n"),
    ("'#t", "text refused 25 0\n"),
    ("''a", "text refused 25 0\n"),
    // other numbers of items than two
    ("(f)", "text refused 22 2\n"),
    ("(define x 5)", "text refused 22 10\n"),
    ("(let ((x 5)) x)", "text refused 22 11\n"),
    ("(lambda (a . b) a)", "text refused 21 11\n"),
];

#[test]
fn the_notation_is_a_narrowed_scheme(rt: HostRuntime) -> Result<(), Fail> {
    assert_eq!(rt; first_misread(rt.alloc(), &DATA)?, None);
    Ok(())
}
