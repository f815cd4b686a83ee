// What stands at the front of a results file.
ghost use Rattle.std.specs.Prelude.{◌≡◌, ◌≤◌, ◌∷◌, [], drop, length, take, Bool, false, IsTrue, MatchOption};
ghost use Rattle.std.specs.List.{prefix_len};
ghost use Rattle.dk_results.specs.Pieces.{is_space, pieces};
ghost use Rattle.dk_results.specs.Results.{begins_with_fail, begins_label, is_label, behind_space, behind_label};
ghost use Rattle.dk_results.specs.Fronts.{is_piece_byte, is_in_line, begins_space, BeginsPiece, BeginsValue, BeginsNoValue};

use dk_num::Dec;

/// A tab, a line feed, a carriage return or a blank.
fn is_space(byte: u8) -> bool
    ensures { result ≡ is_space byte }
{
    byte == b'\t' || byte == b'\n' || byte == b'\r' || byte == b' '
}

/// A byte of a piece: no white space, and no comment's first.
fn is_piece_byte(byte: u8) -> bool
    ensures { result ≡ is_piece_byte byte }
{
    !(is_space(byte) || byte == b'#')
}

/// A letter or an underscore.
fn begins_label(byte: u8) -> bool
    ensures { result ≡ begins_label byte }
{
    byte.is_ascii_alphabetic() || byte == b'_'
}

/// Whether the piece is a label, by its first byte.
fn is_label(piece: &[u8]) -> bool
    ensures { result ≡ is_label piece.now }
{
    match piece {
        [first, ..] => begins_label(*first),
        [] => false,
    }
}

/// Whether the text begins with the word of failure, in any case of its letters.
pub fn begins_with_fail(text: &[u8]) -> bool
    ensures { result ≡ begins_with_fail text.now }
{
    match text.first_chunk::<4>() {
        Some(word) => word.eq_ignore_ascii_case(b"fail"),
        None => false,
    }
}

/// How many bytes of white space are at the front.
fn space_length(bytes: &[u8]) -> usize
    ensures gives_count { result ≡ prefix_len is_space bytes.now }
    ensures is_within { result ≤ length bytes.now }
{
    bytes.iter().take_while(|byte| is_space(**byte)).count()
}

/// How many bytes the line at the front has, without its line feed.
fn line_length(bytes: &[u8]) -> usize
    ensures gives_count { result ≡ prefix_len is_in_line bytes.now }
    ensures is_within { result ≤ length bytes.now }
{
    bytes.iter().take_while(|byte| **byte != b'\n').count()
}

/// How many bytes the piece at the front has.
fn piece_length(bytes: &[u8]) -> usize
    ensures gives_count { result ≡ prefix_len is_piece_byte bytes.now }
    ensures is_within { result ≤ length bytes.now }
{
    bytes
        .iter()
        .take_while(|byte| is_piece_byte(**byte))
        .count()
}

/// What follows the white space at the front.
pub fn behind_space(bytes: &[u8]) -> &[u8]
    ensures { result.now ≡ behind_space bytes.now }
{
    bytes.split_at(space_length(bytes)).1
}

/// What follows the line at the front, from its line feed on.
fn behind_line(bytes: &[u8]) -> &[u8]
    ensures { result.now ≡ drop (prefix_len is_in_line bytes.now) bytes.now }
{
    bytes.split_at(line_length(bytes)).1
}

/// What follows the white space and the comments at the front.
fn behind_comments(bytes: &[u8]) -> &[u8]
    ensures keeps_pieces { pieces result.now ≡ pieces bytes.now }
    ensures begins_piece { BeginsPiece result.now }
{
    let mut rest = behind_space(bytes);
    while let [b'#', ..] = rest {
        rest = behind_space(behind_line(rest));
    }
    rest
}

/// The first piece, and what follows it.
pub fn next_piece(bytes: &[u8]) -> Option<(&[u8], &[u8])>
    ensures { MatchOption result (pieces bytes.now ≡ []) (λ found. pieces bytes.now ≡ found.0.now ∷ pieces found.1.now) }
{
    let rest = behind_comments(bytes);
    if rest.is_empty() {
        return None;
    }
    Some(rest.split_at(piece_length(rest)))
}

/// What follows the first piece, if it is a label; else all pieces still follow.
fn behind_label(bytes: &[u8]) -> &[u8]
    ensures { pieces result.now ≡ behind_label (pieces bytes.now) }
{
    let rest = behind_comments(bytes);
    if is_label(rest) {
        rest.split_at(piece_length(rest)).1
    } else {
        rest
    }
}

/// The first number, and what follows it and its label. None exactly where the first piece is no number.
pub fn next_value(bytes: &[u8]) -> Option<(Dec, &[u8])>
    ensures { MatchOption result (BeginsNoValue bytes.now) (λ found. BeginsValue bytes.now found.0 found.1.now) }
{
    let Some((piece, rest)) = next_piece(bytes) else {
        return None;
    };
    match Dec::read(piece) {
        Ok(value) => Some((value, behind_label(rest))),
        Err(_) => None,
    }
}
