// The lists that a reading fills.
ghost use Rattle.std.specs.Prelude.{◌≡◌, ◌<◌, IfOk, length, slice_set};
ghost use Rattle.recipe.specs.Packing.{Spelling};
ghost use Rattle.notation.specs.Fitting.{Room};
ghost use Rattle.notation.specs.Machine.{Used};
ghost use Rattle.notation.specs.LentLists.{Sound, Stays, Stands, TookPlaceOrFull, AddedPlaceOrFull, NamedOrFull, HoledOrFull, TookLeafOrFull};

use crate::counts::Counts;
use crate::numbers::{number_of, room, spelling};
use recipe::{Place, Refusal};

// The lent lists of places, names and holes, the room for leaves, and how many entries of each are used.
#[derive(Drop)]
pub(crate) struct LentLists<'l> {
    pub(crate) places: &'l mut [Place],
    pub(crate) names: &'l mut [u64],
    pub(crate) holes: &'l mut [u64],
    pub(crate) leaf_room: usize,
    pub(crate) counts: Counts,
}

impl LentLists<'_> {
    // Takes the next place for what begins at the offset, and leaves its record as it is.
    pub(crate) fn take_place(&mut self, at: usize) -> Result<u32, Refusal>
        requires { Sound self.old }
        ensures stays { Stays self.old self.new }
        ensures inside { IfOk result (λ n. n < length self.new.places.now) }
        ensures taken { (most : Room) (used : Used) → Stands most used self.old → TookPlaceOrFull most used self.old.places.now self.new at result }
    {
        let place = self.counts.places;
        if place == room(self.places.len()) {
            return Err(Refusal::NoRoom { offset: at });
        }
        self.counts.places = place + 1;
        Ok(place as u32)
    }

    // Writes the record of a place.
    pub(crate) fn write(&mut self, place: u32, value: Place)
        requires sound { Sound self.old }
        requires inside { place < length self.old.places.now }
        ensures stays { Stays self.old self.new }
        ensures written { self.new.places.now ≡ slice_set self.old.places.now place value }
        ensures stands { (most : Room) (used : Used) → Stands most used self.old → Stands most used self.new }
    {
        self.places[place as usize] = value;
    }

    // Takes the next place for what begins at the offset, and writes its record.
    pub(crate) fn add(&mut self, at: usize, value: Place) -> Result<u32, Refusal>
        requires { Sound self.old }
        ensures stays { Stays self.old self.new }
        ensures added { (most : Room) (used : Used) → Stands most used self.old → AddedPlaceOrFull most used value self.old.places.now self.new at result }
    {
        let place = self.take_place(at)?;
        self.write(place, value);
        Ok(place)
    }

    // The number of the name that begins at the offset.
    pub(crate) fn name(&mut self, at: usize, word: &[u8]) -> Result<u32, Refusal>
        requires { Sound self.old }
        ensures stays { Stays self.old self.new }
        ensures named { (most : Room) (used : Used) → Stands most used self.old → Spelling word.now → NamedOrFull most used word.now self.old.places.now self.new at result }
    {
        number_of(self.names, &mut self.counts.names, spelling(word)).ok_or(Refusal::NoRoom {
            offset: at,
        })
    }

    // The number of the hole that begins at the offset.
    pub(crate) fn hole(&mut self, at: usize, word: &[u8]) -> Result<u32, Refusal>
        requires { Sound self.old }
        ensures stays { Stays self.old self.new }
        ensures held { (most : Room) (used : Used) → Stands most used self.old → Spelling word.now → HoledOrFull most used word.now self.old.places.now self.new at result }
    {
        number_of(self.holes, &mut self.counts.holes, spelling(word)).ok_or(Refusal::NoRoom {
            offset: at,
        })
    }

    // The number of the leaf that begins at the offset.
    pub(crate) fn leaf(&mut self, at: usize) -> Result<u32, Refusal>
        requires { Sound self.old }
        ensures stays { Stays self.old self.new }
        ensures taken { (most : Room) (used : Used) → Stands most used self.old → TookLeafOrFull most used self.old.places.now self.new at result }
    {
        let number = self.counts.leaves;
        if number == self.leaf_room {
            return Err(Refusal::NoRoom { offset: at });
        }
        self.counts.leaves = number + 1;
        Ok(number as u32)
    }
}
