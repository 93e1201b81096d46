// Lists, binder lists, nil and lambda: short texts that are refused, and where; and those beside them that are read.
use crate::reports::first_misread;
use std::test::Fail;

// Lists have two items, and close where they have them.
const LISTS: [(&str, &str); 33] = [
    ("()", "text refused 22 1\n"),
    ("( )", "text refused 22 2\n"),
    ("(a)", "text refused 22 2\n"),
    ("(a b c)", "text refused 22 5\n"),
    ("(a b X)", "text refused 22 5\n"),
    ("(a b 'c)", "text refused 22 5\n"),
    ("(a b 5)", "text refused 22 5\n"),
    ("(a b '())", "text refused 22 5\n"),
    ("(a b (c d))", "text refused 22 5\n"),
    ("(a b lambda)", "text refused 22 5\n"),
    ("(a b a_b)", "text refused 21 5\n"),
    ("(a (b))", "text refused 22 5\n"),
    ("((a) b)", "text refused 22 3\n"),
    (")", "text refused 22 0\n"),
    ("a )", "text refused 22 2\n"),
    ("(a b))", "text refused 22 5\n"),
    ("(a b) )", "text refused 22 6\n"),
    // no white space is needed beside parentheses
    (
        "(a(b c))",
        "0 call 1 2\n1 name 0 a\n2 call 3 4\n3 name 1 b\n4 name 2 c\n",
    ),
    (
        "((a b)c)",
        "0 call 1 4\n1 call 2 3\n2 name 0 a\n3 name 1 b\n4 name 2 c\n",
    ),
    (
        "X(a b)Y",
        "0 hole 0 X\n1 call 2 3\n2 name 0 a\n3 name 1 b\n4 hole 1 Y\n",
    ),
    ("( a\nb )", "0 call 1 2\n1 name 0 a\n2 name 1 b\n"),
    // the text ends inside a list: its whole length
    ("(", "text refused 23 1\n"),
    ("(a", "text refused 23 2\n"),
    ("(a b", "text refused 23 4\n"),
    ("(a b  ", "text refused 23 6\n"),
    ("( \n", "text refused 23 3\n"),
    ("((a b)", "text refused 23 6\n"),
    ("(a (b c)", "text refused 23 8\n"),
    ("a (b", "text refused 23 4\n"),
    // a leaf word that the kind does not read is refused last
    ("24 )", "text refused 22 3\n"),
    ("24 a_b", "text refused 21 3\n"),
    ("24 (", "text refused 23 4\n"),
    ("(24 24", "text refused 23 6\n"),
];

#[test]
fn lists_have_two_items(rt: HostRuntime) -> Result<(), Fail> {
    assert_eq!(rt; first_misread(rt.alloc(), &LISTS)?, None);
    Ok(())
}

// An apostrophe directly before `()` is nil; before any other parenthesis it is of no class, and elsewhere a leaf word.
const NILS: [(&str, &str); 20] = [
    ("'()", "0 nil\n"),
    ("'()'()", "0 nil\n1 nil\n"),
    ("'()x", "0 nil\n1 name 0 x\n"),
    ("'()'x", "0 nil\n1 leaf 0 'x\n"),
    ("('() '())", "0 call 1 2\n1 nil\n2 nil\n"),
    ("(a'())", "text refused 21 1\n"),
    ("'())", "text refused 22 3\n"),
    ("'()()", "text refused 22 4\n"),
    ("'()(", "text refused 23 4\n"),
    ("' ()", "text refused 22 3\n"),
    ("'\n()", "text refused 22 3\n"),
    ("''()", "text refused 22 3\n"),
    ("'a()", "text refused 22 3\n"),
    ("5()", "text refused 22 2\n"),
    ("a'()", "text refused 21 0\n"),
    ("'( )", "text refused 21 0\n"),
    ("'(", "text refused 21 0\n"),
    ("'(a b)", "text refused 21 0\n"),
    ("('", "text refused 23 2\n"),
    ("('(", "text refused 21 1\n"),
];

#[test]
fn nil_is_an_apostrophe_before_an_empty_list(rt: HostRuntime) -> Result<(), Fail> {
    assert_eq!(rt; first_misread(rt.alloc(), &NILS)?, None);
    Ok(())
}

// The word lambda opens a bind, and stands nowhere else; then come one name in parentheses and one recipe.
const BINDS: [(&str, &str); 43] = [
    ("(lambda (a) a)", "0 bind 0 1 a\n1 name 0 a\n"),
    ("(lambda(a)a)", "0 bind 0 1 a\n1 name 0 a\n"),
    ("( lambda ( a ) a )", "0 bind 0 1 a\n1 name 0 a\n"),
    (
        "((lambda (a) a) b)",
        "0 call 1 3\n1 bind 0 2 a\n2 name 0 a\n3 name 1 b\n",
    ),
    ("(lambdas a)", "0 call 1 2\n1 name 0 lambdas\n2 name 1 a\n"),
    (
        "(Lambda (a b))",
        "0 call 1 2\n1 hole 0 Lambda\n2 call 3 4\n3 name 0 a\n4 name 1 b\n",
    ),
    ("lambda", "text refused 22 0\n"),
    ("a lambda", "text refused 22 2\n"),
    ("(x lambda)", "text refused 22 3\n"),
    ("(lambda lambda)", "text refused 22 8\n"),
    ("(lambda (lambda) a)", "text refused 22 9\n"),
    ("(lambda (a lambda) a)", "text refused 22 11\n"),
    ("(lambda (a) lambda)", "text refused 22 12\n"),
    ("(lambda (a) a lambda)", "text refused 22 14\n"),
    ("(lambda)", "text refused 22 7\n"),
    ("(lambda a b)", "text refused 22 8\n"),
    ("(lambda X b)", "text refused 22 8\n"),
    ("(lambda 'a b)", "text refused 22 8\n"),
    ("(lambda '() a)", "text refused 22 8\n"),
    ("(lambda '(a) a)", "text refused 21 8\n"),
    ("(lambda a_b c)", "text refused 21 8\n"),
    ("(lambda () a)", "text refused 22 9\n"),
    ("(lambda (X) a)", "text refused 22 9\n"),
    ("(lambda ('a) a)", "text refused 22 9\n"),
    ("(lambda (5) a)", "text refused 22 9\n"),
    ("(lambda ('()) a)", "text refused 22 9\n"),
    ("(lambda ((a)) a)", "text refused 22 9\n"),
    ("(lambda (a_b) a)", "text refused 21 9\n"),
    ("(lambda (a b) a)", "text refused 22 11\n"),
    ("(lambda (a (b)) a)", "text refused 22 11\n"),
    ("(lambda (a a_b) a)", "text refused 21 11\n"),
    ("(lambda (a))", "text refused 22 11\n"),
    ("(lambda (a) b c)", "text refused 22 14\n"),
    ("(lambda (a) a_b)", "text refused 21 12\n"),
    ("(lambda (a) b a_b)", "text refused 21 14\n"),
    ("(a (lambda b))", "text refused 22 11\n"),
    ("(lambda", "text refused 23 7\n"),
    ("(lambda (", "text refused 23 9\n"),
    ("(lambda (a", "text refused 23 10\n"),
    ("(lambda (a)", "text refused 23 11\n"),
    ("(lambda (a) b", "text refused 23 13\n"),
    ("(lambda (a) b \t\r\n", "text refused 23 17\n"),
    ("(lambda (a) 'A", "text refused 23 14\n"),
];

#[test]
fn lambda_opens_a_bind_and_stands_nowhere_else(rt: HostRuntime) -> Result<(), Fail> {
    assert_eq!(rt; first_misread(rt.alloc(), &BINDS)?, None);
    Ok(())
}
