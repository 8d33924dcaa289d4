// Murmur: MurmurHash3's finalizer of the bytes' number.
ghost use Rattle.std.specs.Prelude.{◌≡◌};
ghost use Rattle.hashers.specs.Published.{fmix64};
ghost use Rattle.hashers.specs.Writes.{murmur_said, murmur_write, murmur_start};

use crate::Unwritten;

// MurmurHash3's finalizer.
pub(crate) fn fmix(x: u64) -> u64
    ensures { result ≡ fmix64 x }
{
    let a = x ^ (x >> 33);
    let b = util::wrapping_mul(a, 0xff51afd7ed558ccd);
    let c = b ^ (b >> 33);
    let d = util::wrapping_mul(c, 0xc4ceb9fe1a85ec53);
    d ^ (d >> 33)
}

// One of three types by name, as in simple.rt.
#[derive(Clone, Copy)]
pub struct MurmurHasher(pub u64);

impl MurmurHasher {
    pub const START: MurmurHasher = MurmurHasher(0);

    pub fn new() -> Self
        ensures { result ≡ murmur_start }
    {
        Self::START
    }

    // At most 8 bytes replace the state. Refusal: 8, more than 8 bytes.
    pub fn write(self, bytes: &[u8]) -> Result<MurmurHasher, Unwritten<MurmurHasher>>
        ensures { murmur_said result ≡ murmur_write self.0 bytes.now }
    {
        let state = self.0;
        match util::load_u64_le(bytes) {
            Ok(n) => Ok(MurmurHasher(fmix(n))),
            Err(util::TooLong) => Err(Unwritten(MurmurHasher(state))),
        }
    }

    pub fn finish(self) -> u64
        ensures { result ≡ self.0 }
    {
        self.0
    }
}
