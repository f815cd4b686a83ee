// The blocks and items of a text's tokens.
ghost use Rattle.std.specs.Prelude.{◌≡◌, ◌+◌, ◌<◌, ◌≤◌, ◌++◌, length, OnOk, IfOk};
ghost use Rattle.std.specs.List.{take_while};
ghost use Rattle.dk_lex.specs.Cut.{HasTokens};
ghost use Rattle.dk_grammar.specs.Grammar.{Grown, is_value};
ghost use Rattle.dk_grammar.specs.Judging.{AreSpans};
ghost use Rattle.dk_grammar.specs.Growths.{opening_by, item_by, IsGrown};

use crate::context::{Context, next, start};
use crate::faults::first_fault;
use crate::known::{entry_at, value_count};
use crate::lookups::opens;
use crate::parts::{Blocks, GrammarFault, Item, Items, Opening, Tree};
use crate::words::{Block, Entry};
use dk_lex::{Span, Token, Tokens};
use std::alloc::{AllocError, Global};

/// The openings and items of the tokens before a place, and what is known of that place.
#[derive(Drop)]
pub struct Growth {
    pub context: Context,
    pub openings: Vec<Opening>,
    pub items: Vec<Item>,
}

/// The values at the front of these tokens.
fn values_after(alloc: Global, text: &[u8], left: &[Token]) -> Result<Tokens, AllocError>
    requires { AreSpans text.now left.now }
    ensures { IfOk result (λ v. v ≡ take_while (is_value text.now) left.now) }
{
    let values = &left[..value_count(text, left)];
    Ok(Tokens::of_vec(values.to_vec(alloc)?))
}

/// Adds the opening of a block, where there is one.
fn push_opening(
    openings: &mut Vec<Opening>,
    block: Option<Block>,
    name: Span,
) -> Result<(), AllocError>
    ensures { OnOk result (openings.new.items ≡ openings.old.items ++ opening_by block name) }
{
    if let Some(block) = block {
        openings.push(Opening { block, name })?;
    }
    Ok(())
}

/// A keyword with the values at the front of the tokens behind it.
fn item_of(
    alloc: Global,
    text: &[u8],
    block: Block,
    entry: Entry,
    keyword: Span,
    left: &[Token],
) -> Result<Item, AllocError>
    requires { AreSpans text.now left.now }
    ensures { IfOk result (λ i. i ≡ record { block = block; keyword = keyword; entry = entry; values = take_while (is_value text.now) left.now }) }
{
    let values = values_after(alloc, text, left)?;
    Ok(Item {
        block,
        keyword,
        entry,
        values,
    })
}

/// Adds the item of a keyword, where there is one.
fn push_item(
    alloc: Global,
    items: &mut Vec<Item>,
    text: &[u8],
    block: Option<Block>,
    entry: Option<Entry>,
    keyword: Span,
    left: &[Token],
) -> Result<(), AllocError>
    requires { AreSpans text.now left.now }
    ensures { OnOk result (items.new.items ≡ items.old.items ++ item_by text.now block entry keyword left.now) }
{
    if let (Some(block), Some(entry)) = (block, entry) {
        items.push(item_of(alloc, text, block, entry, keyword, left)?)?;
    }
    Ok(())
}

/// Adds what the token at a place gives.
fn grow(
    alloc: Global,
    growth: &mut Growth,
    text: &[u8],
    tokens: &[Token],
    place: usize,
) -> Result<(), AllocError>
    requires has_spans { AreSpans text.now tokens.now }
    requires is_within { place < length tokens.now }
    requires is_grown { IsGrown text.now tokens.now place growth.old }
    ensures { OnOk result (IsGrown text.now tokens.now (place + 1) growth.new) }
{
    let token = tokens[place];
    let left = &tokens[place + 1..];
    let opened = opens(text, token);
    let entry = entry_at(text, growth.context, token);
    push_opening(&mut growth.openings, opened, token.span)?;
    push_item(
        alloc,
        &mut growth.items,
        text,
        growth.context.block,
        entry,
        token.span,
        left,
    )?;
    growth.context = next(growth.context, place, opened, entry);
    Ok(())
}

/// The openings and items of all tokens.
fn grown(alloc: Global, text: &[u8], tokens: &[Token]) -> Result<Growth, AllocError>
    requires { AreSpans text.now tokens.now }
    ensures { IfOk result (IsGrown text.now tokens.now (length tokens.now)) }
{
    let mut growth = Growth {
        context: start(),
        openings: Vec::new(alloc),
        items: Vec::new(alloc),
    };
    for place in 0..tokens.len() {
        grow(alloc, &mut growth, text, tokens, place)?;
    }
    Ok(growth)
}

/// The blocks of a text's tokens and its keywords with their values, or the first fault from left to right.
///
/// All faults are sought before anything is built, and seeking them takes no memory. The first one is told:
///
/// - `UnknownKeyword` at a word that is no block, no keyword and not refused, or that is no block, stands right behind
///   `output` and is none of the words that `output` takes;
/// - `Unsupported` at a refused word, but not right behind `output`;
/// - `Misplaced` at a keyword before any block or in a block that doesn't have it, and at a number or a string that the
///   keyword before it doesn't take;
/// - `Repeated` at a block, or a keyword of its block, that stands for the second time;
/// - `MissingBlock` where no token has a fault, with the first of `method`, `variables`, `interface` and `responses` that
///   isn't opened and an empty span at the text's end.
///
/// `NoMemory` where there was no memory for the tree: the tokens have no fault then. After an error there is no tree. The
/// blocks and keywords are those of the Dakota Reference Manual, in this project's profile.
pub fn tree(alloc: Global, text: &[u8], tokens: &Tokens) -> Result<Tree, GrammarFault>
    requires is_short { length text.now ≤ 1048576 }
    requires has_tokens { HasTokens text.now tokens.now }
    ensures gives_outcome { Grown text.now tokens.now result }
{
    let tokens = tokens.items();
    if let Some(fault) = first_fault(text, tokens) {
        return Err(fault);
    }
    let growth = grown(alloc, text, tokens)?;
    Ok(Tree {
        blocks: Blocks::of_vec(growth.openings),
        items: Items::of_vec(growth.items),
    })
}
