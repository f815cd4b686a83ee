// The tokens of a text.
ghost use Rattle.std.specs.Prelude.{◌≡◌, ◌+◌, ◌<◌, ◌≤◌, ◌^◌, ◌++◌, length, take, drop, slice_index, OnOk, IfOk, if◌then◌else◌};
ghost use Rattle.dk_lex.specs.Bytes.{begins_number};
ghost use Rattle.dk_lex.specs.Cut.{Lexed, token_at, word_kind};
ghost use Rattle.dk_lex.specs.Spans.{AreSpans, AreStrings};

use crate::form::{Form, Front};
use crate::front::front_of;
use crate::token::{LexFault, Span, Token, TokenKind, Tokens};
use std::alloc::{AllocError, Global};

/// Whether a word that begins with this byte is a number: a digit, a sign or a point.
fn begins_number(byte: u8) -> bool
    ensures { result ≡ begins_number byte }
{
    byte >= b'0' && byte <= b'9' || byte == b'+' || byte == b'-' || byte == b'.'
}

/// The kind of a word.
fn word_kind(word: &[u8]) -> TokenKind
    ensures { result ≡ word_kind word.now }
{
    match word {
        [first, ..] if begins_number(*first) => TokenKind::Number,
        _ => TokenKind::Word,
    }
}

/// Adds a piece's token, if it is one.
fn push_token(items: &mut Vec<Token>, at: usize, form: Form, bytes: &[u8]) -> Result<(), AllocError>
    requires { at + length bytes.now < 2 ^ 32 }
    ensures { OnOk result (items.new.items ≡ items.old.items ++ token_at at form bytes.now) }
{
    let kind = match form {
        Form::Quoted => TokenKind::Quoted,
        Form::Word => word_kind(bytes),
        _ => return Ok(()),
    };
    let span = Span {
        from: at as u32,
        to: (at + bytes.len()) as u32,
    };
    items.push(Token { kind, span })?;
    Ok(())
}

/// Cuts a text into tokens.
///
/// White space is tab, line feed, carriage return and blank, and a backslash where only white space stands between it
/// and its line's end. A line ends at a line feed alone, or where the text does. Commas and `=` separate as white space
/// does, and a comment goes from `#` to its line's end. What is left are strings, from a quote to the next same quote
/// with bytes 32 to 126 between them, and words, the longest runs of bytes 33 to 126 that are none of these. A word
/// that begins with a digit, a sign or a point is a number.
///
/// Each text has just one cut into longest pieces, which goes to its end or to the place where no piece begins;
/// `each_text_is_cut` says so. Where it goes to the end, the answer is the tokens of its pieces in order, each with its
/// span, a string's with both quotes. They lie in the text, one behind the other, and none is empty
/// (`gives_spans_in_order`). A string begins and ends with one quote, with bytes 32 to 126 alone between the two
/// (`gives_closed_strings`). Else the answer is the first fault, at the place where the cut ends:
///
/// - `OpenString` where the line or the text ends before the string, with the span from the quote to that end;
/// - `BadByte`, with the span of one byte, where a byte is none that may stand there: in a string, closed or not, before
///   the string's `OpenString`, and elsewhere where it begins nothing, as a backslash within a line.
///
/// `NoMemory` where there was no memory for the tokens says nothing of the text. After an error there are no tokens.
pub fn lex(alloc: Global, text: &[u8]) -> Result<Tokens, LexFault>
    requires { length text.now ≤ 1048576 }
    ensures gives_outcome { Lexed text.now result }
    ensures gives_spans_in_order { IfOk result (AreSpans text.now) }
    ensures gives_closed_strings { IfOk result (AreStrings text.now) }
{
    let mut items = Vec::new(alloc);
    let mut at = 0;
    while at < text.len() {
        let rest = &text[at..];
        match front_of(rest) {
            Front::Piece(form, len) => {
                let bytes = &rest[..len];
                push_token(&mut items, at, form, bytes)?;
                at += len;
            }
            Front::Unclosed(len) => {
                return Err(LexFault::OpenString(Span {
                    from: at as u32,
                    to: (at + len) as u32,
                }));
            }
            Front::Stray(offset) => {
                return Err(LexFault::BadByte(Span {
                    from: (at + offset) as u32,
                    to: (at + offset + 1) as u32,
                }));
            }
        }
    }
    Ok(Tokens::of_vec(items))
}
