// Where a token stands.
ghost use Rattle.std.specs.Prelude.{◌≡◌, ◌+◌, ◌<◌, ◌^◌, ◌∷◌, [], ◌++◌, List, ℕ, length};
ghost use Rattle.dk_lex.specs.declared.token.Token.{Token};
ghost use Rattle.dk_grammar.specs.Grammar.{opens, entry_at};
ghost use Rattle.dk_grammar.specs.Contexts.{IsContext};
ghost use Rattle.dk_grammar.specs.Meanings.{takes_mode};

use crate::words::{Block, Entry, Takes};

/// What the tokens before a place say of it: its block, where that block's tokens begin, the keyword whose values come
/// next, and whether that keyword's word does.
#[derive(Clone, Copy)]
pub struct Context {
    pub block: Option<Block>,
    pub section: usize,
    pub keyword: Option<Entry>,
    pub wants_mode: bool,
}

/// The place before the first token.
pub fn start() -> Context
    ensures { (text : List ℕ) → IsContext text [] result }
{
    Context {
        block: None,
        section: 0,
        keyword: None,
        wants_mode: false,
    }
}

/// The place behind one token more.
pub fn next(context: Context, place: usize, opened: Option<Block>, entry: Option<Entry>) -> Context
    requires { place + 1 < 2 ^ 64 }
    ensures { (text : List ℕ) (before : List Token) (t : Token) → IsContext text before context → place ≡ length before → opened ≡ opens text t → entry ≡ entry_at text before t → IsContext text (before ++ t ∷ []) result }
{
    match opened {
        Some(block) => Context {
            block: Some(block),
            section: place + 1,
            keyword: None,
            wants_mode: false,
        },
        None => match entry {
            Some(keyword) => Context {
                block: context.block,
                section: context.section,
                keyword: Some(keyword),
                wants_mode: takes_mode(keyword.takes),
            },
            None => Context {
                block: context.block,
                section: context.section,
                keyword: context.keyword,
                wants_mode: false,
            },
        },
    }
}

fn takes_mode(takes: Takes) -> bool
    ensures { result ≡ takes_mode takes }
{
    matches!(takes, Takes::Mode)
}
