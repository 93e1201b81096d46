// Recipes in a text, and the words that their sheet needs.
use notation::read_recipes;
use recipe::{Leaf, Place, check};
use std::alloc::Global;
use std::test::Fail;

// The table of a text, its leaves, and how many words its sheet needs.
#[derive(Drop)]
pub(crate) struct Table<L> {
    pub(crate) places: Vec<Place>,
    pub(crate) leaves: Vec<L>,
    pub(crate) needed: usize,
}

// The table that a text is read as. The list of leaves is filled with some leaf before.
pub(crate) fn table_of<L: Leaf>(heap: Global, text: &str, some: L) -> Result<Table<L>, Fail> {
    let nil = Place {
        kind: 0,
        a: 0,
        b: 0,
    };
    let mut places = vec![in heap; nil; 512]?;
    let mut names = [0; 64];
    let mut holes = vec![in heap; 0; 512]?;
    let mut leaves = vec![in heap; some; 512]?;
    let counts = read_recipes(
        text.as_bytes(),
        &mut places,
        &mut names,
        &mut holes,
        &mut leaves,
    )?;
    places.truncate(counts.places);
    leaves.truncate(counts.leaves);
    let needed = check(&places, &leaves)?;
    Ok(Table {
        places,
        leaves,
        needed,
    })
}
