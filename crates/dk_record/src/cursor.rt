// Pieces that are read at the front of bytes.
ghost use Rattle.std.specs.Prelude.{◌≡◌, ◌++◌, ◌<◌, MatchOption, length};
ghost use Rattle.std.specs.Int.{w16, w32, w128, to_le_bytes, cast_unsigned};
ghost use Rattle.std.specs.List.{flat_map};
ghost use Rattle.dk_num.specs.Decimal.{IsCanonical};
ghost use Rattle.dk_record.specs.Payloads.{decimal_bytes};
ghost use Rattle.dk_record.specs.Readings.{NoneBegins, Begins, AreDecimals, IsAttempt};

use dk_num::Dec;

/// The mantissa at the front, and what follows it.
fn read_mantissa(bytes: &[u8]) -> Option<(i128, &[u8])>
    ensures { MatchOption result (length bytes.now < 16) (λ found. bytes.now ≡ to_le_bytes w128 (cast_unsigned w128 found.0) ++ found.1.now) }
{
    let Some((mantissa, rest)) = bytes.split_first_chunk::<16>() else {
        return None;
    };
    Some((i128::from_le_bytes(*mantissa), rest))
}

/// The exponent at the front, and what follows it.
fn read_exponent(bytes: &[u8]) -> Option<(i16, &[u8])>
    ensures { MatchOption result (length bytes.now < 2) (λ found. bytes.now ≡ to_le_bytes w16 (cast_unsigned w16 found.0) ++ found.1.now) }
{
    let Some((exponent, rest)) = bytes.split_first_chunk::<2>() else {
        return None;
    };
    Some((i16::from_le_bytes(*exponent), rest))
}

/// The decimal at the front, and what follows it.
pub fn read_decimal(bytes: &[u8]) -> Option<(Dec, &[u8])>
    ensures { MatchOption result (NoneBegins IsCanonical decimal_bytes bytes.now) (λ found. Begins IsCanonical decimal_bytes bytes.now found.0 found.1.now) }
{
    let Some((mantissa, rest)) = read_mantissa(bytes) else {
        return None;
    };
    let Some((exponent, rest)) = read_exponent(rest) else {
        return None;
    };
    match Dec::of_pair(mantissa, exponent as i32) {
        Some(decimal) => Some((decimal, rest)),
        None => None,
    }
}

/// As many decimals as there are places, at the front, and what follows them.
pub fn read_decimals<'a>(bytes: &'a [u8], out: &mut [Dec]) -> Option<&'a [u8]>
    ensures { MatchOption result (NoneBegins (AreDecimals (length out.old)) (flat_map decimal_bytes) bytes.now) (λ rest. Begins (AreDecimals (length out.old)) (flat_map decimal_bytes) bytes.now out.new rest.now) }
{
    let mut rest = bytes;
    for place in 0..out.len() {
        let Some(found) = read_decimal(rest) else {
            return None;
        };
        out[place] = found.0;
        rest = found.1;
    }
    Some(rest)
}

/// The number of an attempt at the front, and what follows it.
pub fn read_attempt(bytes: &[u8]) -> Option<(u32, &[u8])>
    ensures { MatchOption result (NoneBegins IsAttempt (to_le_bytes w32) bytes.now) (λ found. Begins IsAttempt (to_le_bytes w32) bytes.now found.0 found.1.now) }
{
    let Some((attempt, rest)) = bytes.split_first_chunk::<4>() else {
        return None;
    };
    let attempt = u32::from_le_bytes(*attempt);
    if attempt < 1 {
        return None;
    }
    Some((attempt, rest))
}
