// What the tokens of values say.
ghost use Rattle.std.specs.Prelude.{◌≡◌, ◌≤◌, length, IsTrue, IfOk, MatchOption, true, false, option_and_then};
ghost use Rattle.std.specs.List.{All, list_all, before_first, after_first, position_or_len};
ghost use Rattle.dk_num.specs.Numbers.{is_digit};
ghost use Rattle.dk_lex.specs.Spans.{IsStringAt, is_printed};
ghost use Rattle.dk_grammar.specs.Meanings.{text_at};
ghost use Rattle.dk_reader.specs.Values.{is_numeral, whole_of, number_of, is_star, is_copied, if_positive, inside, value_by, values_of};
ghost use Rattle.dk_reader.specs.Readable.{IsReadable};

use crate::value::{Value, Values};
use dk_lex::{Span, Token, TokenKind};
use dk_num::Dec;
use dk_types::Text;
use std::alloc::{AllocError, Global};

/// Whether a byte is a decimal digit.
fn is_digit(byte: u8) -> bool
    ensures { result ≡ is_digit byte }
{
    b'0' <= byte && byte <= b'9'
}

/// Whether all bytes are digits.
fn are_digits(bytes: &[u8]) -> bool
    ensures { result ≡ list_all is_digit bytes.now }
{
    bytes.iter().all(|byte| is_digit(*byte))
}

/// Whether a text is digits alone, at least one.
fn is_numeral(bytes: &[u8]) -> bool
    ensures { result ≡ is_numeral bytes.now }
{
    !bytes.is_empty() && are_digits(bytes)
}

/// The number of a text that is digits alone, up to 4,000,000.
fn whole_of(bytes: &[u8]) -> Option<u32>
    ensures { result ≡ whole_of bytes.now }
{
    if bytes.is_empty() {
        return None;
    }
    let mut whole = 0u32;
    for byte in bytes {
        if !is_digit(*byte) {
            return None;
        }
        whole = 10 * whole + u32::from(*byte - b'0');
        if whole > 4_000_000 {
            return None;
        }
    }
    Some(whole)
}

/// The number that a number's text says.
fn number_of(bytes: &[u8]) -> Option<Dec>
    ensures { result ≡ number_of bytes.now }
{
    Dec::read(bytes).ok()
}

/// Where the first star stands, or else the length.
fn star_at(bytes: &[u8]) -> usize
    ensures gives_place { result ≡ position_or_len is_star bytes.now }
    ensures lies_within { result ≤ length bytes.now }
{
    let mut at = 0;
    for byte in bytes {
        if *byte == b'*' {
            break;
        }
        at += 1;
    }
    at
}

/// The two sides of the star of N*value, where N is digits.
fn cut_at_star(bytes: &[u8]) -> Option<(&[u8], &[u8])>
    ensures { MatchOption result (is_copied bytes.now ≡ false) (λ sides. (is_copied bytes.now ≡ true)
        × (sides.0.now ≡ before_first is_star bytes.now) × (sides.1.now ≡ after_first is_star bytes.now)) }
{
    let at = star_at(bytes);
    if at == bytes.len() {
        return None;
    }
    let digits = &bytes[..at];
    if is_numeral(digits) {
        let value = &bytes[at + 1..];
        Some((digits, value))
    } else {
        None
    }
}

/// N of its digits, where it is from 1 to 4,000,000.
fn copies_of(digits: &[u8]) -> Option<u32>
    ensures { result ≡ option_and_then if_positive (whole_of digits.now) }
{
    match whole_of(digits) {
        Some(0) => None,
        copies => copies,
    }
}

/// A number as a value, with N*value for N of them.
fn number_value(span: Span, bytes: &[u8]) -> Value
    ensures { result ≡ value_by TokenKind.Number span bytes.now }
{
    match cut_at_star(bytes) {
        Some((digits, value)) => Value {
            span,
            copies: copies_of(digits),
            whole: whole_of(value),
            number: number_of(value),
            string: None,
        },
        None => Value {
            span,
            copies: Some(1),
            whole: whole_of(bytes),
            number: number_of(bytes),
            string: None,
        },
    }
}

/// Bytes that are visible or blanks, as a text.
fn text_of(alloc: Global, bytes: &[u8]) -> Result<Text, AllocError>
    requires { IsTrue (list_all is_printed bytes.now) }
    ensures { IfOk result (λ t. t ≡ bytes.now) }
{
    match str::from_utf8(bytes) {
        Ok(text) => Text::of(alloc, text),
        Err(_) => unreachable!(),
    }
}

/// What stands between the quotes of a string.
fn string_of(alloc: Global, text: &[u8], span: Span) -> Result<Text, AllocError>
    requires lies_in_text { span.to ≤ length text.now }
    requires is_string { IsStringAt text.now TokenKind.Quoted span }
    ensures { IfOk result (λ t. t ≡ inside (text_at text.now span)) }
{
    let inside = &text[span.from as usize + 1..span.to as usize - 1];
    text_of(alloc, inside)
}

/// A token as a value.
fn value_of(alloc: Global, text: &[u8], token: Token) -> Result<Value, AllocError>
    requires { IsReadable text.now token }
    ensures { IfOk result (λ v. v ≡ value_by token.kind token.span (text_at text.now token.span)) }
{
    let span = token.span;
    match token.kind {
        TokenKind::Number => {
            let bytes = &text[span.from as usize..span.to as usize];
            Ok(number_value(span, bytes))
        }
        TokenKind::Quoted => Ok(Value {
            span,
            copies: Some(1),
            whole: None,
            number: None,
            string: Some(string_of(alloc, text, span)?),
        }),
        TokenKind::Word => Ok(Value {
            span,
            copies: Some(1),
            whole: None,
            number: None,
            string: None,
        }),
    }
}

/// Tokens as values.
pub fn values_of(alloc: Global, text: &[u8], tokens: &[Token]) -> Result<Values, AllocError>
    requires { All (IsReadable text.now) tokens.now }
    ensures { IfOk result (λ vs. vs ≡ values_of text.now tokens.now) }
{
    let mut values = Vec::with_capacity(alloc, tokens.len())?;
    for token in tokens {
        values.push(value_of(alloc, text, *token)?)?;
    }
    Ok(Values::of_vec(values))
}
