// The piece at the front of a text.
ghost use Rattle.std.specs.Prelude.{◌≡◌, ◌+◌, ◌<◌, ◌≤◌, length, IsTrue, slice_index};
ghost use Rattle.std.specs.List.{prefix_len};
ghost use Rattle.dk_lex.specs.Bytes.{is_space, is_separator, is_quote, is_word_byte, is_string_byte};
ghost use Rattle.dk_lex.specs.Fronts.{belongs, white_length, Begins, Within};

use crate::form::{Form, Front, Run};

/// A tab, a line feed, a carriage return or a blank.
fn is_space(byte: u8) -> bool
    ensures { result ≡ is_space byte }
{
    byte == b'\t' || byte == b'\n' || byte == b'\r' || byte == b' '
}

/// A comma or an equals sign.
fn is_separator(byte: u8) -> bool
    ensures { result ≡ is_separator byte }
{
    byte == b',' || byte == b'='
}

/// A quote of either sort.
fn is_quote(byte: u8) -> bool
    ensures { result ≡ is_quote byte }
{
    byte == b'"' || byte == b'\''
}

/// A byte that a word may have.
fn is_word_byte(byte: u8) -> bool
    ensures { result ≡ is_word_byte byte }
{
    byte >= 33
        && byte <= 126
        && !(is_quote(byte) || is_separator(byte) || byte == b'#' || byte == b'\\')
}

/// A byte that may stand in a string that this quote began.
fn is_string_byte(quote: u8, byte: u8) -> bool
    ensures { result ≡ is_string_byte quote byte }
{
    byte >= 32 && byte <= 126 && byte != quote
}

/// Whether the byte may be in the run.
fn belongs(run: Run, byte: u8) -> bool
    ensures { result ≡ belongs run byte }
{
    match run {
        Run::Word => is_word_byte(byte),
        Run::Line => byte != b'\n',
        Run::Blank => byte != b'\n' && (is_space(byte) || byte == b'\\'),
        Run::Inside(quote) => is_string_byte(quote, byte),
    }
}

/// How many bytes at the front belong to the run.
fn run_length(run: Run, rest: &[u8]) -> usize
    ensures gives_count { result ≡ prefix_len (belongs run) rest.now }
    ensures is_within { result ≤ length rest.now }
{
    rest.iter().take_while(|byte| belongs(run, **byte)).count()
}

/// How many bytes at the front are white space. At a backslash the whole run of blanks is passed at once, so that no
/// byte is looked at for each backslash before it.
fn white_length(rest: &[u8]) -> usize
    ensures gives_count { result ≡ white_length rest.now }
    ensures is_within { result ≤ length rest.now }
{
    let mut n = 0;
    while n < rest.len() {
        if is_space(rest[n]) {
            n += 1;
        } else if rest[n] == b'\\' {
            let tail = &rest[n..];
            let end = n + run_length(Run::Blank, tail);
            if end < rest.len() && rest[end] != b'\n' {
                break;
            }
            n = end;
        } else {
            break;
        }
    }
    n
}

/// A string at the front, or why there is none.
fn string_front(rest: &[u8]) -> Front
    requires has_bytes { 0 < length rest.now }
    requires is_quoted { IsTrue (is_quote (slice_index rest.now 0)) }
    ensures gives_front { Begins rest.now result }
    ensures is_within { Within rest.now result }
{
    let quote = rest[0];
    let tail = &rest[1..];
    let end = 1 + run_length(Run::Inside(quote), tail);
    if end == rest.len() {
        return Front::Unclosed(end);
    }
    if rest[end] == b'\n' {
        Front::Unclosed(end)
    } else if rest[end] == quote {
        Front::Piece(Form::Quoted, end + 1)
    } else {
        Front::Stray(end)
    }
}

/// What stands at the front of a text.
pub fn front_of(rest: &[u8]) -> Front
    requires { 0 < length rest.now }
    ensures gives_front { Begins rest.now result }
    ensures is_within { Within rest.now result }
{
    let first = rest[0];
    let white = white_length(rest);
    if white > 0 {
        Front::Piece(Form::White, white)
    } else if is_separator(first) {
        Front::Piece(Form::Separator, 1)
    } else if first == b'#' {
        let tail = &rest[1..];
        Front::Piece(Form::Comment, 1 + run_length(Run::Line, tail))
    } else if is_quote(first) {
        string_front(rest)
    } else {
        let word = run_length(Run::Word, rest);
        if word > 0 {
            Front::Piece(Form::Word, word)
        } else {
            Front::Stray(0)
        }
    }
}
