ghost use Rattle.std.specs.Prelude.{◌≡◌, ℕ, ◌<◌, ◌==◌, IfOk, if◌then◌else◌, replicate};
ghost use Rattle.ix_marks.specs.Places.{no_place, spot_in, set_place, row_of, empty_row, place_in};

use ix_float::{Mark, Way};
use std::alloc::{AllocError, Global};

/// What a descriptor stands for: an open entry, and the object behind it.
#[derive(Clone, Copy, Debug, PartialEq, Eq)]
pub struct Spot {
    pub entry: u32,
    pub object: u32,
}

/// The mark of a descriptor, with the spot at which it was last set for each way.
#[derive(Clone, Copy)]
pub struct Place {
    pub mark: Mark,
    reading: Spot,
    writing: Spot,
}

/// The marks of the descriptors of one process, and the generation of its label.
#[derive(Clone, Copy)]
pub struct Row {
    pub generation: u64,
    pub places: [Place; 32],
}

impl Place {
    /// A place whose mark was never set.
    fn empty() -> Place
        ensures { result ≡ no_place }
    {
        let nowhere = Spot {
            entry: 0,
            object: 0,
        };
        Place {
            mark: Mark::none(),
            reading: nowhere,
            writing: nowhere,
        }
    }

    /// Where the mark was last set for that way.
    pub fn spot(&self, way: Way) -> Spot
        ensures { result ≡ spot_in way self.now }
    {
        match way {
            Way::Reading => self.reading,
            Way::Writing => self.writing,
        }
    }

    /// Sets the mark for that way, at a spot, with the generations of now.
    fn set(&mut self, way: Way, spot: Spot, proc_gen: u64, obj_gen: u64)
        ensures { self.new ≡ set_place way spot (proc_gen, obj_gen) self.old }
    {
        self.mark.set(way, proc_gen, obj_gen);
        match way {
            Way::Reading => self.reading = spot,
            Way::Writing => self.writing = spot,
        }
    }
}

impl Row {
    /// A row in which no mark was ever set.
    pub fn empty() -> Row
        ensures { result ≡ empty_row }
    {
        Row::all(Place::empty())
    }

    /// A row in which each mark is like this one.
    fn all(place: Place) -> Row
        ensures { result ≡ row_of place }
    {
        Row {
            generation: 0,
            places: [place; 32],
        }
    }

    /// The mark of a descriptor; one that was never set where there is no such descriptor.
    pub fn place(&self, fd: usize) -> Place
        ensures { result ≡ place_in self.now fd }
    {
        match self.places.get(fd) {
            Some(place) => *place,
            None => Place::empty(),
        }
    }

    /// Sets the mark of a descriptor.
    pub fn set(&mut self, fd: usize, way: Way, spot: Spot, obj_gen: u64)
        requires { fd < 32 }
        ensures generation { self.new.generation ≡ self.old.generation }
        ensures places { (d : ℕ) → place_in self.new d ≡ (if d == fd then set_place way spot (self.old.generation, obj_gen) (place_in self.old fd) else place_in self.old d) }
    {
        let mut place = self.place(fd);
        place.set(way, spot, self.generation, obj_gen);
        self.places[fd] = place;
    }

    /// The mark of a descriptor is one that was never set.
    pub fn clear(&mut self, fd: usize)
        ensures generation { self.new.generation ≡ self.old.generation }
        ensures places { (d : ℕ) → place_in self.new d ≡ (if d == fd then no_place else place_in self.old d) }
    {
        if fd < 32 {
            self.places[fd] = Place::empty();
        }
    }
}

/// So many rows, in which no mark was ever set. `AllocError` where there is no memory for them.
pub fn empty_rows(alloc: Global, rows: u32) -> Result<Vec<Row>, AllocError>
    ensures { IfOk result (λ v. v.items ≡ replicate rows empty_row) }
{
    let row = Row::all(Place::empty());
    vec![in alloc; row; rows as usize]
}
