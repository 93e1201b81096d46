// Makes calls on tables of four shapes, and prints what comes of them. Standard input may name a shape and a number of places,
// and then how many calls of a name are made, as in `one_hole 512 open 2 tell 3 look 0 alike 0`: a table is opened so often,
// and its first tells, looks and questions whether places are alike are made. What is not said is made once, if it is an
// opening, and else as often as the table has it. Where the input is empty, all is made on each shape, at 64, 128, 256 and 512
// places.
#![tactic(auto)]

mod calls;
mod shapes;
mod table;

use crate::calls::{Counts, print_calls};
use crate::shapes::Shape;
use anyhow::bail;
use std::str::SplitWhitespace;

// Each shape at each size.
fn print_all<R: Print + AllocGlobal>(rt: &R) -> anyhow::Result<()> {
    for shape in Shape::ALL {
        for size in [64, 128, 256, 512] {
            print_calls(rt, shape, size, Counts::ALL)?;
        }
    }
    Ok(())
}

// How many calls of each name the words ask for.
fn counts_in(words: &mut SplitWhitespace) -> anyhow::Result<Counts> {
    let mut counts = Counts::ALL;
    while let Some(name) = words.next() {
        let Some(count) = words.next() else {
            bail!("no number follows {name}");
        };
        counts.set(name, count.parse()?)?;
    }
    Ok(counts)
}

fn main(rt: HostRuntime) -> anyhow::Result<()> {
    let mut line = String::new(rt.alloc());
    rt.read_line(&mut line)?;
    let mut words = line.split_whitespace();
    let Some(word) = words.next() else {
        return print_all(&rt);
    };
    let Some(shape) = Shape::named(word) else {
        bail!("no shape is called {word}");
    };
    let size = match words.next() {
        Some(size) => size.parse()?,
        None => 512,
    };
    let counts = counts_in(&mut words)?;
    print_calls(&rt, shape, size, counts)
}
