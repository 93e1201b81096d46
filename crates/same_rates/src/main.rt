// Reads words from standard input, and writes which of them spell the same rate.
#![tactic(auto)]

use rate_report::{LIMIT, report_on};
use std::io::{Read, Write};

fn main(rt: HostRuntime) -> anyhow::Result<()> {
    let mut input = Vec::new(rt.alloc());
    // One byte past the limit tells that there is too much.
    rt.stdin().take(LIMIT as u64 + 1).read_to_end(&mut input)?;
    let report = report_on(rt.alloc(), &input)?;
    rt.stdout().write_all(&report)?;
    Ok(())
}
