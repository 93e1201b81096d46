// From a text to an answer: two recipes are told to be one, and the hole is looked at.
#![tactic(auto)]

use leaves::Symbol;
use notation::read_recipes;
use recipe::{Leaf, Place, check};
use sheet::open;

const TEXT: &str = "(lambda (a) X) (lambda (b) b)";

fn main(rt: HostRuntime) -> anyhow::Result<()> {
    let mut places = vec![in rt.alloc(); Place::nil(); 64]?;
    let (mut names, mut holes) = ([0; 16], [0; 64]);
    let mut leaves: [Symbol; 0] = [];
    let counts = read_recipes(
        TEXT.as_bytes(),
        &mut places,
        &mut names,
        &mut holes,
        &mut leaves,
    )?;
    places.truncate(counts.places);

    let mut memory = vec![in rt.alloc(); 0u32; check(&places, &leaves)?]?;
    let mut sheet = open(&places, &leaves, &mut memory);
    sheet.tell(0, 2)?;
    let finding = sheet.look(1, &[])?;
    let sheet = sheet.seal();
    let told = sheet.pairs();
    println!(rt; "X is {finding}, since {told:?} are one")?;
    Ok(())
}
