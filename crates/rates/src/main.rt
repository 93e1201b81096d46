// Lists what comes of a text: standard input, listing, standard output. Its leaves are rates.
#![tactic(auto)]

use leaves::Rate;
use listing::listing;
use std::io::{Read, Write};

fn main(rt: HostRuntime) -> anyhow::Result<()> {
    let mut text = Vec::new(rt.alloc());
    // One byte past the longest text tells that there is too much.
    rt.stdin().take(4097).read_to_end(&mut text)?;
    let mut leaves = [Rate {
        numerator: 0,
        denominator: 1,
    }; 64];
    let mut out = [0; 4096];
    let written = listing(&text, &mut leaves, &mut out);
    rt.stdout().write_all(&out[..written])?;
    Ok(())
}
