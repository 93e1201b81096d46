// Reads recipes from standard input, and writes the table that they are read as, or why they are refused.
#![tactic(auto)]

use read_report::report_on;
use std::io::{Read, Write};

fn main(rt: HostRuntime) -> anyhow::Result<()> {
    let mut text = Vec::new(rt.alloc());
    rt.stdin().read_to_end(&mut text)?;
    let report = report_on(rt.alloc(), &text)?;
    rt.stdout().write_all(&report)?;
    Ok(())
}
