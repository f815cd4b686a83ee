//! The hash of a point, of 64 bits.
ghost use Rattle.std.specs.Prelude.{◌≡◌, All};
ghost use Rattle.dk_num.specs.Decimal.{IsCanonical};
ghost use Rattle.dk_book.specs.Hashes as hashes;

use dk_num::Dec;

/// What a hash begins with.
const START: u64 = 0x243f_6a88_85a3_08d3;

/// An odd number whose ones and zeros follow no pattern: 2^64 by the golden ratio.
const MULTIPLIER: u64 = 0x9e37_79b9_7f4a_7c15;

/// How many numbers a word can be.
const WORD: u128 = 0x1_0000_0000_0000_0000;

/// A hash with a word more.
#[tactic(auto, unfolding(crate::specs::Hashes::mixed))]
pub(crate) fn mixed(hash: u64, word: u64) -> u64
    ensures { result ≡ hashes.mixed hash word }
{
    let product = (hash ^ word).wrapping_mul(MULTIPLIER);
    product ^ product >> 32
}

/// A hash with a decimal more.
#[tactic(auto, unfolding(crate::specs::Hashes::with_number))]
fn with_number(hash: u64, number: Dec) -> u64
    ensures value { result ≡ hashes.with_number hash number }
    ensures canonical { IsCanonical number }
{
    let (mantissa, exponent) = number.pair();
    let bits = mantissa.cast_unsigned();
    let lower = mixed(hash, (bits % WORD) as u64);
    let upper = mixed(lower, (bits / WORD) as u64);
    mixed(upper, exponent.cast_unsigned() as u64)
}

/// The hash of a point, of all its mantissas and exponents.
pub(crate) fn hash_of(point: &[Dec]) -> u64
    ensures value { result ≡ hashes.hash_of point.now }
    ensures canonical { All IsCanonical point.now }
{
    let mut hash = START;
    for number in point {
        hash = with_number(hash, *number);
    }
    hash
}
