ghost use Rattle.std.{specs.Prelude.{◌≡◌, ◌+◌, ◌<◌, ◌≤◌, ◌^◌, IfSome, MatchOption, length}, proofs.Common.{option_map}};
ghost use Rattle.ix_inode.specs.Volumes.{AreVolumes, IsSpot, all_nodes};

use crate::volume::Volume;
use ix_model::Obj;

/// Where an inode lies: the number of its file system, and its own in it.
#[derive(Clone, Copy)]
pub(crate) struct Spot {
    pub(crate) volume: usize,
    pub(crate) inode: u32,
}

/// Where the inode of a number lies; None past the last one. One step for each file system.
pub(crate) fn spot_of(volumes: &[Volume], object: u32) -> Option<Spot>
    requires { AreVolumes volumes.now }
    ensures { MatchOption result (length (all_nodes volumes.now) ≤ object) (λ s. IsSpot volumes.now s.volume s.inode object) }
{
    for (k, volume) in volumes.iter().enumerate() {
        match volume.place_of(object) {
            Some(inode) => return Some(Spot { volume: k, inode }),
            None => (),
        }
    }
    None
}

/// Where the inode of a number lies that is one of theirs.
pub(crate) fn spot_there(volumes: &[Volume], object: u32) -> Spot
    requires laid { AreVolumes volumes.now }
    requires there { object < length (all_nodes volumes.now) }
    ensures { IsSpot volumes.now result.volume result.inode object }
{
    match spot_of(volumes, object) {
        Some(spot) => spot,
        None => unreachable!(),
    }
}

/// The object of a number in a file system, of which the first inode has that number.
pub(crate) fn object_of(first: u32, n: Option<u32>) -> Option<Obj>
    requires { IfSome n (λ n. first + n < 2 ^ 32) }
    ensures { option_map (λ o. o.0) result ≡ option_map (λ n. first + n) n }
{
    match n {
        Some(n) => Some(Obj(first + n)),
        None => None,
    }
}
