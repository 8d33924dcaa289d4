// The helpers of util.rs, and the multiply that the hashers wrap.
#![tactic(auto)]

ghost use Rattle.std.specs.Prelude.{◌≡◌, ◌*◌, ◌%◌, ◌^◌, ◌≤◌, length};
ghost use Rattle.util.specs.Bytes.{number, load, said};
ghost use Rattle.util.specs.Power.{round_up};

// a * b modulo 2^64, from 32-bit digits: low_a times b, and high_a times low_b. The product of the two high digits is a multiple of
// 2^64. Of the crossed products the low digit alone counts; the first is cut to it, so that no sum here reaches 2^64. By hand and not by
// u64's own method: docs/requests/03.md says what this body costs on 32-bit boards.
pub fn wrapping_mul(a: u64, b: u64) -> u64
    ensures { result ≡ (a * b) % 2 ^ 64 }
{
    let high_a = a >> 32;
    let low_a = a & 0xffff_ffff;
    let high_b = b >> 32;
    let low_b = b & 0xffff_ffff;
    let low = low_a * low_b;
    let crossed = (low_a * high_b + (low >> 32)) & 0xffff_ffff;
    ((high_a * low_b + crossed) << 32) | (low & 0xffff_ffff)
}

// The least power of two that is at least x; 0 for 0 and for what is above 2^63, as document 01 has it.
#[tactic(auto, using(crate::proofs::Powers::round_none))]
pub fn round_to_pow2(x: u64) -> u64
    ensures { result ≡ round_up x }
{
    if x == 0 {
        return 0;
    }
    if 0x8000_0000_0000_0000 < x {
        return 0;
    }
    1u64 << (64 - u64::leading_zeros(x - 1))
}

// The little-endian number of at most 8 bytes.
fn number_of(bytes: &[u8]) -> u64
    requires { length bytes.now ≤ 8 }
    ensures { result ≡ number bytes.now }
{
    let mut n: u64 = 0;
    for &byte in bytes.iter().rev() {
        n = n * 256 + u64::from(byte);
    }
    n
}

// Refusal 8: more than 8 bytes.
#[derive(Clone, Copy, Debug, PartialEq, Eq)]
pub struct TooLong;

// The little-endian number of at most 8 bytes, those that lack being 0. Refusal: 8, more than 8 bytes.
#[tactic(auto, unfolding(crate::specs::Bytes::load))]
pub fn load_u64_le(bytes: &[u8]) -> Result<u64, TooLong>
    ensures { said result ≡ load bytes.now }
{
    if bytes.len() <= 8 {
        Ok(number_of(bytes))
    } else {
        Err(TooLong)
    }
}
