// The calls on a table, and what comes of them.
use crate::shapes::Shape;
use crate::table::{Look, Table};
use anyhow::bail;
use leaves::Symbol;
use recipe::{Finding, check};
use sheet::{OpenSheet, open};

const NO_LEAVES: [Symbol; 0] = [];

// How often a table is opened, how many of its tells and looks are made at most, and of how many of its pairs it is asked
// whether they are alike.
#[derive(Clone, Copy)]
pub(crate) struct Counts {
    opens: usize,
    tells: usize,
    looks: usize,
    alikes: usize,
}

impl Counts {
    // One opening, and all calls that a table has.
    pub(crate) const ALL: Counts = Counts {
        opens: 1,
        tells: usize::MAX,
        looks: usize::MAX,
        alikes: usize::MAX,
    };

    // Sets how many calls of a name are made.
    pub(crate) fn set(&mut self, name: &str, count: usize) -> anyhow::Result<()> {
        match name {
            "open" => self.opens = count,
            "tell" => self.tells = count,
            "look" => self.looks = count,
            "alike" => self.alikes = count,
            _ => bail!("no call is called {name}"),
        }
        Ok(())
    }
}

// Makes the tells: how many are accepted.
fn tell_all(sheet: &mut OpenSheet, tells: &[(usize, usize)]) -> usize {
    let mut accepted: usize = 0;
    for (p, q) in tells {
        if sheet.tell(*p, *q).is_ok() {
            accepted = accepted.saturating_add(1);
        }
    }
    accepted
}

// Makes the looks: how many find what is open.
fn look_all(sheet: &OpenSheet, looks: &[Look]) -> usize {
    let mut open: usize = 0;
    for look in looks {
        if sheet.look(look.place, &look.path) == Ok(Finding::Open) {
            open = open.saturating_add(1);
        }
    }
    open
}

// Asks of the pairs whether they are alike: how many are.
fn ask_all(sheet: &OpenSheet, pairs: &[(usize, usize)]) -> usize {
    let mut alike: usize = 0;
    for (p, q) in pairs {
        if sheet.alike(*p, *q) == Ok(true) {
            alike = alike.saturating_add(1);
        }
    }
    alike
}

// Opens the finished table of a shape, asks of its pairs whether they are alike, and ends the line.
fn print_alikes<R: Print + AllocGlobal>(
    rt: &R,
    shape: Shape,
    size: u32,
    most: usize,
) -> anyhow::Result<()> {
    let mut table = shape.table(rt.alloc(), size, true)?;
    table.tells.truncate(most);
    let Table { places, tells, .. } = table;
    let mut memory = vec![in rt.alloc(); 0u32; check(&places, &NO_LEAVES)?]?;
    let sheet = open(&places, &NO_LEAVES, &mut memory);
    let asked = tells.len();
    let alike = ask_all(&sheet, &tells);
    let different = asked.saturating_sub(alike);
    println!(rt; ", alike yes {alike}, no {different}")?;
    Ok(())
}

// Makes calls on the table of a shape, and prints a line of what comes of them. Whether pairs are alike is asked of the
// finished table, since no hole may stand in them.
pub(crate) fn print_calls<R: Print + AllocGlobal>(
    rt: &R,
    shape: Shape,
    size: u32,
    counts: Counts,
) -> anyhow::Result<()> {
    let mut table = shape.table(rt.alloc(), size, false)?;
    table.tells.truncate(counts.tells);
    table.looks.truncate(counts.looks);
    let Table {
        places,
        tells,
        looks,
        ..
    } = table;
    let mut memory = vec![in rt.alloc(); 0u32; check(&places, &NO_LEAVES)?]?;
    for _ in 1..counts.opens {
        open(&places, &NO_LEAVES, &mut memory).opened()?;
    }
    let mut sheet = open(&places, &NO_LEAVES, &mut memory);
    let told = tells.len();
    let accepted = tell_all(&mut sheet, &tells);
    let refused = told.saturating_sub(accepted);
    let looked = looks.len();
    let unknown = look_all(&sheet, &looks);
    let known = looked.saturating_sub(unknown);
    print!(rt;
        "{shape}: places {}, tells accepted {accepted}, refused {refused}, looks open {unknown}, known {known}",
        places.len()
    )?;
    print_alikes(rt, shape, size, counts.alikes)
}
