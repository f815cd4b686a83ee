// Bytes that are written behind others.
ghost use Rattle.std.specs.Prelude.{◌≡◌, ◌+◌, ◌*◌, ◌≤◌, ◌++◌, length, take, drop};
ghost use Rattle.std.specs.List.{All, flat_map};
ghost use Rattle.dk_num.specs.Decimal.{IsCanonical};
ghost use Rattle.std.specs.Int.{w16, w128, to_le_bytes, cast_unsigned};
ghost use Rattle.dk_record.specs.Payloads.{decimal_bytes};

use dk_num::Dec;

/// Writes a piece behind the first bytes, and answers how many there are then.
pub fn put_bytes(piece: &[u8], out: &mut [u8], at: usize) -> usize
    requires { at + length piece.now ≤ length out.old }
    ensures end { result ≡ at + length piece.now }
    ensures bytes { take result out.new ≡ take at out.old ++ piece.now }
    ensures rest { drop result out.new ≡ drop result out.old }
{
    out[at..at + piece.len()].copy_from_slice(piece);
    at + piece.len()
}

/// Writes a mantissa behind the first bytes.
fn put_mantissa(mantissa: i128, out: &mut [u8], at: usize) -> usize
    requires { at + 16 ≤ length out.old }
    ensures end { result ≡ at + 16 }
    ensures bytes { take result out.new ≡ take at out.old ++ to_le_bytes w128 (cast_unsigned w128 mantissa) }
    ensures rest { drop result out.new ≡ drop result out.old }
{
    put_bytes(&mantissa.to_le_bytes(), out, at)
}

/// Writes an exponent behind the first bytes.
fn put_exponent(exponent: i16, out: &mut [u8], at: usize) -> usize
    requires { at + 2 ≤ length out.old }
    ensures end { result ≡ at + 2 }
    ensures bytes { take result out.new ≡ take at out.old ++ to_le_bytes w16 (cast_unsigned w16 exponent) }
    ensures rest { drop result out.new ≡ drop result out.old }
{
    put_bytes(&exponent.to_le_bytes(), out, at)
}

/// Writes a decimal behind the first bytes.
fn put_decimal(decimal: &Dec, out: &mut [u8], at: usize) -> usize
    requires { at + 18 ≤ length out.old }
    ensures end { result ≡ at + 18 }
    ensures bytes { take result out.new ≡ take at out.old ++ decimal_bytes decimal.now }
    ensures rest { drop result out.new ≡ drop result out.old }
    ensures canonical { IsCanonical decimal.now }
{
    let (mantissa, exponent) = decimal.pair();
    let middle = put_mantissa(mantissa, out, at);
    put_exponent(exponent as i16, out, middle)
}

/// Writes decimals behind the first bytes.
pub fn put_decimals(decimals: &[Dec], out: &mut [u8], at: usize) -> usize
    requires { at + 18 * length decimals.now ≤ length out.old }
    ensures end { result ≡ at + 18 * length decimals.now }
    ensures bytes { take result out.new ≡ take at out.old ++ flat_map decimal_bytes decimals.now }
    ensures rest { drop result out.new ≡ drop result out.old }
    ensures canonical { All IsCanonical decimals.now }
{
    match decimals.split_first() {
        None => at,
        Some((first, rest)) => {
            let behind = put_decimal(first, out, at);
            put_decimals(rest, out, behind)
        }
    }
}
