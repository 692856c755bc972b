ghost use Rattle.std.specs.Prelude.{◌≡◌, ◌<◌};
ghost use Rattle.ix_name.specs.Buckets.{mixed, bucket_of};
ghost use Rattle.ix_model.specs.world.NameRefs.{name_of};

use ix_model::NameRef;

/// A prime just below 2^32: the remainders of a sum in which each byte counts.
const PRIME: u64 = 4_294_967_291;

/// The bucket of a name of a directory, among so many.
pub fn bucket_of(dir: u32, name: &NameRef<'_>, buckets: u32) -> u32
    requires { 0 < buckets }
    ensures bucket { result ≡ bucket_of buckets dir (name_of name.now) }
    ensures below { result < buckets }
{
    (mixed(dir, name.as_bytes()) % buckets as u64) as u32
}

/// A number below the prime in which the directory and each byte count. By the multiplier names of a byte or two spread over
/// all buckets too.
#[tactic(auto, unfolding(crate::specs::Buckets::mixed))]
fn mixed(dir: u32, bytes: &[u8]) -> u64
    ensures { result ≡ mixed dir bytes.now }
{
    let mut sum = dir as u64;
    for byte in bytes {
        sum = (sum * 16_777_619 + *byte as u64) % PRIME;
    }
    sum
}
