// A table that is built place by place, with the pairs that it is told, and the looks that are made at it.
use recipe::{Kind, Place};
use std::alloc::{AllocError, Global};

// A place that is looked at along a path.
#[derive(Drop)]
pub(crate) struct Look {
    pub(crate) place: usize,
    pub(crate) path: Vec<u8>,
}

#[derive(Drop)]
pub(crate) struct Table {
    pub(crate) places: Vec<Place>,
    pub(crate) tells: Vec<(usize, usize)>,
    pub(crate) looks: Vec<Look>,
    // whether each hole is the name of its number instead, modulo 64
    finished: bool,
    heap: Global,
}

impl Table {
    // A table without places, tells and looks.
    pub(crate) fn new(heap: Global, finished: bool) -> Table {
        Table {
            places: Vec::new(heap),
            tells: Vec::new(heap),
            looks: Vec::new(heap),
            finished,
            heap,
        }
    }

    // The number of the place `after` places after the last one.
    pub(crate) fn place_after(&self, after: u32) -> u32 {
        let last = u32::try_from(self.places.len()).unwrap_or(u32::MAX);
        last.saturating_add(after)
    }

    // The next place.
    fn push(&mut self, kind: Kind, a: u32, b: u32) -> Result<usize, AllocError> {
        let place = self.places.len();
        self.places.push(Place {
            kind: kind as u32,
            a,
            b,
        })?;
        Ok(place)
    }

    pub(crate) fn name(&mut self, name: u32) -> Result<usize, AllocError> {
        self.push(Kind::Name, name, 0)
    }

    pub(crate) fn hole(&mut self, hole: u32) -> Result<usize, AllocError> {
        if self.finished {
            self.name(hole % 64)
        } else {
            self.push(Kind::Hole, hole, 0)
        }
    }

    // A bind of the name over the place that follows.
    pub(crate) fn bind(&mut self, name: u32) -> Result<usize, AllocError> {
        let inside = self.place_after(1);
        self.push(Kind::Bind, name, inside)
    }

    // A call of the two places that follow.
    pub(crate) fn call(&mut self) -> Result<usize, AllocError> {
        let left = self.place_after(1);
        let right = self.place_after(2);
        self.push(Kind::Call, left, right)
    }

    // Two places that are to be told.
    pub(crate) fn tell(&mut self, first: usize, second: usize) -> Result<(), AllocError> {
        self.tells.push((first, second))?;
        Ok(())
    }

    // A place that is to be looked at, along one step taken again and again.
    pub(crate) fn look(&mut self, place: usize, step: u8, length: u32) -> Result<(), AllocError> {
        let path = vec![in self.heap; step; length as usize]?;
        self.looks.push(Look { place, path })?;
        Ok(())
    }
}
