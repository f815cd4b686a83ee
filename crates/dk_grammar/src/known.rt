// What is known of a token where it stands.
ghost use Rattle.std.specs.Prelude.{◌≡◌, ◌≤◌, ◌&&◌, ◌||◌, is_some, length, false, List};
ghost use Rattle.std.specs.List.{list_any, prefix_len};
ghost use Rattle.std.specs.Option.{option_map_or};
ghost use Rattle.std.specs.Str.{str_eq_ignore_ascii_case};
ghost use Rattle.dk_lex.specs.declared.token.Token.{Token};
ghost use Rattle.dk_grammar.specs.Lists.{first};
ghost use Rattle.dk_grammar.specs.Meanings.{is_taken, is_word_kind, is_mode, is_keyword, is_refused};
ghost use Rattle.dk_grammar.specs.Grammar.{word, is_word, entry_in, entry_at, is_wanted, is_seen, is_value, opens, same_word, token_faults, block_after, keyword_after};
ghost use Rattle.dk_grammar.specs.Contexts.{IsContext};
ghost use Rattle.dk_grammar.specs.Judging.{IsSpan, AreSpans, known_at};

use crate::context::Context;
use crate::judge::{Known, token_fault};
use crate::lookups::{
    entry_of, is_alike, is_keyword, is_mode, is_refused, is_word, opens, word_at,
};
use crate::parts::GrammarFault;
use crate::words::{Block, Entry, Takes};
use dk_lex::{Token, TokenKind};

/// Whether a keyword takes values of this kind.
fn is_taken(takes: Takes, kind: TokenKind) -> bool
    ensures { result ≡ is_taken takes kind }
{
    match takes {
        Takes::Nothing => false,
        Takes::Wholes(_, _) => matches!(kind, TokenKind::Number),
        Takes::Numbers => matches!(kind, TokenKind::Number),
        Takes::Strings => matches!(kind, TokenKind::Quoted),
        Takes::Mode => matches!(kind, TokenKind::Word),
    }
}

/// Whether the keyword, where there is one, takes values of this kind.
fn is_wanted(keyword: Option<Entry>, kind: TokenKind) -> bool
    ensures { result ≡ option_map_or (λ e. is_taken e.takes kind) keyword false }
{
    keyword.is_some_and(|entry| is_taken(entry.takes, kind))
}

/// A token as a keyword of a block.
fn entry_in(text: &[u8], block: Block, token: Token) -> Option<Entry>
    requires { IsSpan text.now token }
    ensures { result ≡ entry_in text.now block token }
{
    if opens(text, token).is_none() && is_word(token.kind) {
        entry_of(block, word_at(text, token))
    } else {
        None
    }
}

/// A token as a keyword of the block in which it stands.
pub fn entry_at(text: &[u8], context: Context, token: Token) -> Option<Entry>
    requires { IsSpan text.now token }
    ensures { (before : List Token) → IsContext text.now before context → result ≡ entry_at text.now before token }
{
    entry_in(text, context.block?, token)
}

/// Whether another token is a word that is this token's but for ASCII case.
fn is_same_word(text: &[u8], token: Token, other: Token) -> bool
    requires { IsSpan text.now token × IsSpan text.now other }
    ensures { result ≡ same_word text.now token other }
{
    is_word(other.kind) && is_alike(word_at(text, token), word_at(text, other))
}

/// Whether the word of a token stands among these tokens.
fn is_among(text: &[u8], tokens: &[Token], token: Token) -> bool
    requires { IsSpan text.now token × AreSpans text.now tokens.now }
    ensures { result ≡ list_any (same_word text.now token) tokens.now }
{
    tokens.iter().any(|other| is_same_word(text, token, *other))
}

/// Whether a block, or a keyword of a block, stands for the second time.
fn is_seen(text: &[u8], before: &[Token], context: Context, token: Token, entry: bool) -> bool
    requires { IsSpan text.now token × AreSpans text.now before.now × IsContext text.now before.now context }
    ensures { result ≡ ((is_some (opens text.now token) || entry) && is_seen text.now before.now token) }
{
    if opens(text, token).is_some() {
        is_among(text, before, token)
    } else if entry {
        let section = &before[context.section..];
        is_among(text, section, token)
    } else {
        false
    }
}

/// Whether a token is a word that `output` takes.
fn is_mode_at(text: &[u8], token: Token) -> bool
    requires { IsSpan text.now token }
    ensures { result ≡ (is_word text.now token && is_mode (word text.now token)) }
{
    is_word(token.kind) && is_mode(word_at(text, token))
}

/// Whether a token is a keyword of some block.
fn is_keyword_at(text: &[u8], token: Token) -> bool
    requires { IsSpan text.now token }
    ensures { result ≡ (is_word text.now token && is_keyword (word text.now token)) }
{
    is_word(token.kind) && is_keyword(word_at(text, token))
}

/// Whether a token is a word that is refused.
fn is_refused_at(text: &[u8], token: Token) -> bool
    requires { IsSpan text.now token }
    ensures { result ≡ (is_word text.now token && is_refused (word text.now token)) }
{
    is_word(token.kind) && is_refused(word_at(text, token))
}

/// What is known of a token behind these.
fn known_of(text: &[u8], before: &[Token], context: Context, token: Token) -> Known
    requires { IsSpan text.now token × AreSpans text.now before.now × IsContext text.now before.now context }
    ensures { result ≡ known_at text.now before.now token }
{
    let entry = entry_at(text, context, token).is_some();
    Known {
        word: is_word(token.kind),
        opens: opens(text, token).is_some(),
        wants_mode: context.wants_mode,
        mode: is_mode_at(text, token),
        keyword: is_keyword_at(text, token),
        refused: is_refused_at(text, token),
        entry,
        taken: is_wanted(context.keyword, token.kind),
        seen: is_seen(text, before, context, token, entry),
    }
}

/// The first fault of a token behind these.
pub fn fault_at(
    text: &[u8],
    before: &[Token],
    context: Context,
    token: Token,
) -> Option<GrammarFault>
    requires { IsSpan text.now token × AreSpans text.now before.now × IsContext text.now before.now context }
    ensures { (after : List Token) → result ≡ first (token_faults text.now (record { before = before.now; here = token; after = after })) }
{
    let known = known_of(text, before, context, token);
    token_fault(token.span, &known)
}

/// Whether a token is no keyword and no block's name.
fn is_value(text: &[u8], token: Token) -> bool
    requires { IsSpan text.now token }
    ensures { result ≡ is_value text.now token }
{
    !(opens(text, token).is_some() || is_keyword_at(text, token))
}

/// How many values stand at the front of these tokens.
pub fn value_count(text: &[u8], left: &[Token]) -> usize
    requires { AreSpans text.now left.now }
    ensures gives_count { result ≡ prefix_len (is_value text.now) left.now }
    ensures is_within { result ≤ length left.now }
{
    left.iter()
        .take_while(|token| is_value(text, **token))
        .count()
}
