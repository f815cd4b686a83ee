// The first fault of a text's tokens.
ghost use Rattle.std.specs.Prelude.{◌≡◌, ◌+◌, ◌<◌, ◌≤◌, find, length};
ghost use Rattle.std.specs.List.{filter_map, flat_map, list_any};
ghost use Rattle.dk_grammar.specs.Lists.{first, places};
ghost use Rattle.dk_grammar.specs.Grammar.{token_faults, end, opens, is_missing, grammar_faults};
ghost use Rattle.std.specs.Option.{option_map};
ghost use Rattle.dk_grammar.specs.declared.parts.GrammarFault.TheVariants.{MissingBlock};
ghost use Rattle.dk_grammar.specs.Meanings.{same_block};
ghost use Rattle.dk_grammar.specs.Judging.{AreSpans};
ghost use Rattle.dk_grammar.specs.Growths.{IsJudged, HasJudged};

use crate::context::{Context, next, start};
use crate::known::{entry_at, fault_at};
use crate::lookups::opens;
use crate::parts::GrammarFault;
use crate::words::Block;
use dk_lex::{Span, Token};

/// The blocks that each study has, in the order in which they are missed.
const NEEDED: [Block; 4] = [
    Block::Method,
    Block::Variables,
    Block::Interface,
    Block::Responses,
];

/// The place behind a token without a fault, or the token's first fault.
fn judge_at(
    text: &[u8],
    tokens: &[Token],
    place: usize,
    context: Context,
) -> Result<Context, GrammarFault>
    requires has_spans { AreSpans text.now tokens.now }
    requires is_within { place < length tokens.now }
    requires is_judged { IsJudged text.now tokens.now place context }
    ensures { HasJudged text.now tokens.now place result }
{
    let token = tokens[place];
    let before = &tokens[..place];
    match fault_at(text, before, context, token) {
        Some(fault) => Err(fault),
        None => {
            let opened = opens(text, token);
            let entry = entry_at(text, context, token);
            Ok(next(context, place, opened, entry))
        }
    }
}

/// The first fault of a token, from left to right.
fn first_token_fault(text: &[u8], tokens: &[Token]) -> Option<GrammarFault>
    requires { AreSpans text.now tokens.now }
    ensures { result ≡ first (flat_map (token_faults text.now) (places tokens.now)) }
{
    let mut context = start();
    for place in 0..tokens.len() {
        match judge_at(text, tokens, place, context) {
            Ok(behind) => context = behind,
            Err(fault) => return Some(fault),
        }
    }
    None
}

/// Whether a token opens this block.
fn is_opened(text: &[u8], tokens: &[Token], block: Block) -> bool
    requires { AreSpans text.now tokens.now }
    ensures { result ≡ list_any (same_block block) (filter_map (opens text.now) tokens.now) }
{
    tokens
        .iter()
        .filter_map(|token| opens(text, *token))
        .any(|opened| block == opened)
}

/// The first of these blocks that no token opens, as a fault at the text's end.
fn missing(text: &[u8], tokens: &[Token], needed: &[Block]) -> Option<GrammarFault>
    requires is_short { length text.now ≤ 1048576 }
    requires has_spans { AreSpans text.now tokens.now }
    ensures { result ≡ option_map (λ b. MissingBlock b (end text.now)) (find (λ b. is_missing text.now tokens.now b) needed.now) }
{
    let at = text.len() as u32;
    let end = Span { from: at, to: at };
    needed
        .iter()
        .find(|block| !is_opened(text, tokens, **block))
        .map(|block| GrammarFault::MissingBlock(*block, end))
}

/// The first fault of all tokens, from left to right, and at their end the first block that is missing.
pub fn first_fault(text: &[u8], tokens: &[Token]) -> Option<GrammarFault>
    requires is_short { length text.now ≤ 1048576 }
    requires has_spans { AreSpans text.now tokens.now }
    ensures { result ≡ first (grammar_faults text.now tokens.now) }
{
    first_token_fault(text, tokens).or(missing(text, tokens, &NEEDED))
}
