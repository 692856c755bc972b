ghost use Rattle.std.specs.Prelude.{◌≡◌, ◌+◌, ◌*◌, ◌<◌, ◌^◌, ◌==◌, ◌&&◌, ◌||◌, ℕ, false, OnOk};
ghost use Rattle.ix_model.specs.{history.History.{History}, opening.Opening.{opening_world}};
ghost use Rattle.ix_flow.specs.{Lowerings.{first_fall}, Tracking.{AreFalls, is_noted}};

use ix_model::{NoMemory, Obj};
use std::alloc::Global;
use std::collections::BTreeMap;

/// The places at which objects were let down. `NoMemory` comes where there is none for one more; they aren't used again then.
#[derive(Drop)]
pub struct Falls {
    /// The number of the object times 2^32, and the place.
    places: BTreeMap<u64, ()>,
}

impl Falls {
    /// None.
    pub fn new(alloc: Global) -> Falls
        ensures { (o place : ℕ) → is_noted result o place ≡ false }
    {
        Falls {
            places: BTreeMap::new(alloc),
        }
    }

    /// The entry of a place let an object down.
    pub fn note(&mut self, object: Obj, place: u32) -> Result<(), NoMemory>
        ensures { OnOk result ((o p : ℕ) → p < 2 ^ 32 → is_noted self.new o p ≡ (o == object.0 && p == place || is_noted self.old o p)) }
    {
        match self.places.insert(key(object, place), ()) {
            Ok(_) => Ok(()),
            Err(_) => Err(NoMemory),
        }
    }

    /// The first place after that one at which an object was let down.
    pub fn first(&self, object: Obj, after: u32) -> Option<u32>
        ensures first { (h : History) → AreFalls self.now h → result ≡ first_fall (opening_world h.config) 1 h.events object.0 after }
    {
        if after == u32::MAX {
            return None;
        }
        let (from, to) = (key(object, after + 1), key(object, u32::MAX));
        match self.places.range(from..=to).next() {
            Some((found, _)) => Some((*found - key(object, 0)) as u32),
            None => None,
        }
    }
}

/// The key of an object and a place.
fn key(object: Obj, place: u32) -> u64
    ensures { result ≡ object.0 * 4294967296 + place }
{
    u64::from(object.0) * 0x1_0000_0000 + u64::from(place)
}
