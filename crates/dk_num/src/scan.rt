// A number's text in pieces.
ghost use Rattle.std.specs.Prelude.{◌≡◌, ◌+◌, ◌<◌, ◌≤◌, ◌++◌, length, Bool, IsTrue};
ghost use Rattle.std.specs.List.{prefix_len};
ghost use Rattle.dk_num.specs.Numbers.{AreDigits, is_digit, is_sign_byte, is_mark_byte, is_point_byte, front_byte, parts, spelled};
ghost use Rattle.dk_num.specs.Reading.{spelling};

/// A number's text in pieces, and what stands behind them.
#[derive(Clone, Copy)]
pub(crate) struct Pieces<'a> {
    pub(crate) sign: &'a [u8],
    pub(crate) whole: &'a [u8],
    pub(crate) point: &'a [u8],
    pub(crate) fraction: &'a [u8],
    pub(crate) mark: &'a [u8],
    pub(crate) exponent_sign: &'a [u8],
    pub(crate) exponent: &'a [u8],
    pub(crate) rest: &'a [u8],
}

fn is_digit(byte: u8) -> bool
    ensures { result ≡ is_digit byte }
{
    b'0' <= byte && byte <= b'9'
}

fn is_sign(byte: u8) -> bool
    ensures { result ≡ is_sign_byte byte }
{
    byte == b'+' || byte == b'-'
}

fn is_mark(byte: u8) -> bool
    ensures { result ≡ is_mark_byte byte }
{
    byte == b'E' || byte == b'e'
}

/// How many digits the text begins with.
fn digit_run(text: &[u8]) -> usize
    ensures run { result ≡ prefix_len is_digit text.now }
    ensures within { result ≤ length text.now }
{
    for (i, byte) in text.iter().enumerate() {
        if !is_digit(*byte) {
            return i;
        }
    }
    text.len()
}

/// How many signs the text begins with: one at most.
fn sign_run(text: &[u8]) -> usize
    ensures run { result ≡ length (front_byte is_sign_byte text.now) }
    ensures within { result ≤ length text.now }
{
    if !text.is_empty() && is_sign(text[0]) {
        1
    } else {
        0
    }
}

/// How many points the text begins with: one at most.
fn point_run(text: &[u8]) -> usize
    ensures run { result ≡ length (front_byte is_point_byte text.now) }
    ensures within { result ≤ length text.now }
{
    if !text.is_empty() && text[0] == b'.' {
        1
    } else {
        0
    }
}

/// How many marks of an exponent the text begins with: one at most.
fn mark_run(text: &[u8]) -> usize
    ensures run { result ≡ length (front_byte is_mark_byte text.now) }
    ensures within { result ≤ length text.now }
{
    if !text.is_empty() && is_mark(text[0]) {
        1
    } else {
        0
    }
}

/// The pieces that the text begins with, each as long as it can be.
pub(crate) fn cut<'a>(text: &'a [u8]) -> Pieces<'a>
    ensures parts { spelling result ≡ parts text.now }
    ensures bytes { text.now ≡ spelled (spelling result) ++ result.rest.now }
    ensures few { length result.whole.now + length result.fraction.now ≤ length text.now }
{
    let (sign, rest) = text.split_at(sign_run(text));
    let (whole, rest) = rest.split_at(digit_run(rest));
    let (point, rest) = rest.split_at(point_run(rest));
    let (fraction, rest) = rest.split_at(digit_run(rest));
    let digits = whole.len() + fraction.len();
    let (mark, rest) = rest.split_at(if digits > 0 { mark_run(rest) } else { 0 });
    let marked = mark.len() > 0;
    let (exponent_sign, rest) = rest.split_at(if marked { sign_run(rest) } else { 0 });
    let (exponent, rest) = rest.split_at(if marked { digit_run(rest) } else { 0 });
    Pieces {
        sign,
        whole,
        point,
        fraction,
        mark,
        exponent_sign,
        exponent,
        rest,
    }
}
