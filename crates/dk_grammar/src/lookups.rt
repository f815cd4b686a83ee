// What words mean.
ghost use Rattle.std.specs.Prelude.{◌≡◌, find, ◌&&◌};
ghost use Rattle.std.specs.List.{list_any};
ghost use Rattle.std.specs.Option.{option_map};
ghost use Rattle.std.specs.Str.{str_eq_ignore_ascii_case};
ghost use Rattle.dk_grammar.specs.Meanings.{opened, is_keyword, entry_of, is_refused, is_mode, is_word_kind, same_block};
ghost use Rattle.dk_grammar.specs.Grammar.{word, opens};
ghost use Rattle.dk_grammar.specs.Judging.{IsSpan};

use crate::table::{BlockWord, Keyword, blocks, keywords, mode_words, refused_words};
use crate::words::{Block, Entry};
use dk_lex::{Token, TokenKind};

/// Whether two words are the same but for ASCII case.
pub fn is_alike(a: &[u8], b: &[u8]) -> bool
    ensures { result ≡ str_eq_ignore_ascii_case a.now b.now }
{
    a.eq_ignore_ascii_case(b)
}

/// The block of the first of these names that a word is.
fn opened_by(table: &[BlockWord], word: &[u8]) -> Option<Block>
    ensures { result ≡ option_map (λ r. r.block) (find (λ r. str_eq_ignore_ascii_case r.word.now word.now) table.now) }
{
    table
        .iter()
        .find(|row| is_alike(row.word, word))
        .map(|row| row.block)
}

/// The block that a word opens, in any ASCII case.
pub fn opened(word: &[u8]) -> Option<Block>
    ensures { result ≡ opened word.now }
{
    opened_by(blocks(), word)
}

/// Whether a word is one of these keywords.
fn is_keyword_in(table: &[Keyword], word: &[u8]) -> bool
    ensures { result ≡ list_any (λ r. str_eq_ignore_ascii_case r.word.now word.now) table.now }
{
    table.iter().any(|row| is_alike(row.word, word))
}

/// Whether a word is a keyword of some block.
pub fn is_keyword(word: &[u8]) -> bool
    ensures { result ≡ is_keyword word.now }
{
    is_keyword_in(keywords(), word)
}

/// What the first of these keywords takes that is a word of a block.
fn entry_among(table: &[Keyword], block: Block, word: &[u8]) -> Option<Entry>
    ensures { result ≡ option_map (λ r. r.entry) (find (λ r. same_block block r.block && str_eq_ignore_ascii_case r.word.now word.now) table.now) }
{
    table
        .iter()
        .find(|row| block == row.block && is_alike(row.word, word))
        .map(|row| row.entry)
}

/// What a word is as a keyword of a block, in any ASCII case, and None where the block has no such keyword.
pub fn entry_of(block: Block, word: &[u8]) -> Option<Entry>
    ensures { result ≡ entry_of block word.now }
{
    entry_among(keywords(), block, word)
}

/// Whether a word is one of these.
fn is_one_of(table: &[&[u8]], word: &[u8]) -> bool
    ensures { result ≡ list_any (λ w. str_eq_ignore_ascii_case w.now word.now) table.now }
{
    table.iter().any(|listed| is_alike(listed, word))
}

/// Whether a word is refused.
pub fn is_refused(word: &[u8]) -> bool
    ensures { result ≡ is_refused word.now }
{
    is_one_of(refused_words(), word)
}

/// Whether `output` takes a word.
pub fn is_mode(word: &[u8]) -> bool
    ensures { result ≡ is_mode word.now }
{
    is_one_of(mode_words(), word)
}

/// Whether tokens of this kind are words.
pub fn is_word(kind: TokenKind) -> bool
    ensures { result ≡ is_word_kind kind }
{
    matches!(kind, TokenKind::Word)
}

/// The bytes of a token.
pub fn word_at(text: &[u8], token: Token) -> &[u8]
    requires { IsSpan text.now token }
    ensures { result.now ≡ word text.now token }
{
    &text[token.span.from as usize..token.span.to as usize]
}

/// The block that a token opens.
pub fn opens(text: &[u8], token: Token) -> Option<Block>
    requires { IsSpan text.now token }
    ensures { result ≡ opens text.now token }
{
    if is_word(token.kind) {
        opened(word_at(text, token))
    } else {
        None
    }
}
