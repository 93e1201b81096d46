// The texts of the worked examples.
use leaves::Rate;
use notation::read_recipes;
use recipe::{Place, pack};
use specimens::{Specimen, specimens};

// Whether the text of an example is read as its table, with its leaves and its names.
fn is_read_as_its_table(specimen: Specimen) -> bool {
    let mut places = [Place::nil(); 16];
    let mut names = [0; 8];
    let mut holes = [0; 8];
    let mut leaves = [Rate {
        numerator: 0,
        denominator: 0,
    }; 8];
    let text = specimen.recipes.as_bytes();
    let read = read_recipes(text, &mut places, &mut names, &mut holes, &mut leaves);
    let Ok(counts) = read else {
        return false;
    };
    let spelled = specimen.names.iter().map(|name| pack(name.as_bytes()));
    places.get(..counts.places) == Some(specimen.places)
        && leaves.get(..counts.leaves) == Some(specimen.leaves)
        && spelled.eq(names.iter().take(counts.names).map(|name| Some(*name)))
}

#[test]
fn the_texts_of_the_worked_examples_are_read_as_their_tables(rt: HostRuntime) {
    for specimen in specimens() {
        assert!(rt; is_read_as_its_table(specimen), "{}", specimen.recipes);
    }
}
