// Records: an attempt that was made, and what it gave.
ghost use Rattle.std.specs.Prelude.{◌≡◌, ◌≤◌, false, length, take, drop, IfSome, MatchOption};
ghost use Rattle.std.specs.List.{All};
ghost use Rattle.dk_num.specs.Decimal.{IsCanonical};
ghost use Rattle.dk_types.specs.Entries.{kept, values_of};
ghost use Rattle.dk_record.specs.Payloads.{said_bytes, payload, payload_size};
ghost use Rattle.dk_record.specs.Readings.{NoneBegins, Begins, IsSaid, said_by, ReadsRecord};

use crate::cursor::{read_attempt, read_decimals};
use crate::pieces::{put_bytes, put_decimals};
use dk_num::Dec;
use dk_types::Outcome;

/// A record that was read: the number of its attempt, whether that gave values, and how many bytes its payload takes.
#[derive(Clone, Copy, Debug, PartialEq, Eq)]
pub struct Decoded {
    pub attempt: u32,
    pub values: bool,
    pub length: usize,
}

/// Writes the payload of an entry's record at the front, and answers its length: the decimals of the point, each as its
/// mantissa in 16 bytes and its exponent in 2; the attempt in 4 bytes; a byte that is 1 where it gave values and else 0;
/// and the values. There is room for it, and attempts count from 1. What stands behind it stays.
pub fn write_record(point: &[Dec], attempt: u32, outcome: Outcome<'_>, out: &mut [u8]) -> usize
    requires has_room { payload_size (length point.now) (kept outcome) ≤ length out.old }
    requires is_numbered { 1 ≤ attempt }
    ensures has_size { result ≡ payload_size (length point.now) (kept outcome.entry) }
    ensures is_payload { take result out.new ≡ payload (record { point = point.now; attempt = attempt; said = kept outcome.entry }) }
    ensures keeps_rest { drop result out.new ≡ drop result out.old }
    ensures point_is_canonical { All IsCanonical point.now }
    ensures values_are_canonical { IfSome (values_of (kept outcome.entry)) (λ values. All IsCanonical values) }
{
    let at = put_decimals(point, out, 0);
    let at = put_bytes(&attempt.to_le_bytes(), out, at);
    match outcome {
        Outcome::Failed => put_bytes(&[0], out, at),
        Outcome::Values(values) => {
            let at = put_bytes(&[1], out, at);
            put_decimals(values, out, at)
        }
    }
}

/// What an attempt gave, by the bytes at the front, and what follows it. Where it failed the values stay as they were.
fn read_said<'a>(bytes: &'a [u8], values: &mut [Dec]) -> Option<(bool, &'a [u8])>
    ensures reads { MatchOption result (NoneBegins (IsSaid (length values.old)) said_bytes bytes.now) (λ found. Begins (IsSaid (length values.old)) said_bytes bytes.now (said_by found.0 values.new) found.1.now) }
    ensures stays_on_failure { IfSome result (λ found. found.0 ≡ false → values.new ≡ values.old) }
{
    match bytes.split_first() {
        Some((0, rest)) => Some((false, rest)),
        Some((1, rest)) => match read_decimals(rest, values) {
            Some(rest) => Some((true, rest)),
            None => None,
        },
        _ => None,
    }
}

/// The record whose payload stands at the front, for as many variables and responses as the two slices have places: its
/// point goes into the one, and its values into the other, which stays as it was where the attempt failed. None exactly
/// where no such payload stands there; nothing is said of the two slices then.
pub fn read_record(bytes: &[u8], point: &mut [Dec], values: &mut [Dec]) -> Option<Decoded>
    ensures reads { ReadsRecord (length point.old) (length values.old) bytes.now point.new values.new result }
    ensures stays_on_failure { IfSome result (λ decoded. decoded.values ≡ false → values.new ≡ values.old) }
{
    let Some(behind) = read_decimals(bytes, point) else {
        return None;
    };
    let Some((attempt, behind)) = read_attempt(behind) else {
        return None;
    };
    let Some((gave, rest)) = read_said(behind, values) else {
        return None;
    };
    Some(Decoded {
        attempt,
        values: gave,
        length: bytes.len() - rest.len(),
    })
}
