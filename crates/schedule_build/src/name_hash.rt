//! A hash of names.

ghost use Rattle.std.specs.Prelude.{◌≡◌};
ghost use Rattle.schedule_build.specs.Hashed.{name_hash};

/// A hash of a name's bytes: FNV-1a, whose upper bits are then mixed. Equal names have equal
/// hashes, and all that stands on it holds whatever it is.
#[tactic(auto, unfolding(crate::specs::Hashed::name_hash))]
pub(crate) fn name_hash(name: &str) -> u32
    ensures { result ≡ name_hash name.now }
{
    let mut hash: u64 = 0xcbf29ce484222325;
    for byte in name.as_bytes() {
        hash = (hash ^ u64::from(*byte)).wrapping_mul(0x100000001b3);
    }
    (hash.wrapping_mul(0x9e3779b97f4a7c15) >> 32) as u32
}
