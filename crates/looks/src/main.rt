// Lists what comes of a text: standard input, listing, standard output. Its leaves are symbols.
#![tactic(auto)]

use leaves::Symbol;
use listing::listing;
use std::io::{Read, Write};

fn main(rt: HostRuntime) -> anyhow::Result<()> {
    let mut text = Vec::new(rt.alloc());
    // One byte past the longest text tells that there is too much.
    rt.stdin().take(4097).read_to_end(&mut text)?;
    let mut leaves = [Symbol { packed: 0 }; 64];
    let mut out = [0; 4096];
    let written = listing(&text, &mut leaves, &mut out);
    rt.stdout().write_all(&out[..written])?;
    Ok(())
}
