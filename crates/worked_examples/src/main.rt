// Prints the worked examples: their recipes, and below them each call with its answer.
#![tactic(auto)]

use recipe::{Finding, Label, Refusal};
use specimens::{Call, Specimen, specimens};
use std::io;

// Ends the line of a look with what it finds; a name is spelled.
fn print_finding(rt: &impl Print, names: &[&str], finding: Finding) -> io::Result<()> {
    if let Finding::Label(Label::Name(number)) = finding {
        if let Some(name) = names.get(number) {
            return println!(rt; " name {name}");
        }
    }
    println!(rt; " {finding}")
}

// One line for a look and its answer.
fn print_look(
    rt: &impl Print,
    names: &[&str],
    place: usize,
    path: &[u8],
    answer: Result<Finding, Refusal>,
) -> io::Result<()> {
    print!(rt; "  look {place}")?;
    for step in path {
        print!(rt; " step {step}")?;
    }
    match answer {
        Ok(finding) => print_finding(rt, names, finding),
        Err(refusal) => println!(rt; " {refusal}"),
    }
}

// One line for a call and its answer.
fn print_call(rt: &impl Print, names: &[&str], call: Call) -> io::Result<()> {
    match call {
        Call::Tell(p, q, Ok(())) => println!(rt; "  tell {p} {q} accepted"),
        Call::Tell(p, q, Err(refusal)) => println!(rt; "  tell {p} {q} {refusal}"),
        Call::Look(p, path, answer) => print_look(rt, names, p, path, answer),
    }
}

fn print_specimen(rt: &impl Print, specimen: Specimen) -> io::Result<()> {
    println!(rt; "{}", specimen.recipes)?;
    for call in specimen.calls {
        print_call(rt, specimen.names, *call)?;
    }
    Ok(())
}

fn main(rt: HostRuntime) -> anyhow::Result<()> {
    for specimen in specimens() {
        print_specimen(&rt, specimen)?;
    }
    Ok(())
}
