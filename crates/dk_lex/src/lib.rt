//! The tokens of a study's text: its words, numbers and strings, each with the place where it stands.
#![tactic(auto)]

mod form;
mod front;
pub mod laws;
mod lexer;
#[cfg(test)]
mod tests;
mod token;

pub use lexer::lex;
pub use token::{LexFault, Span, Token, TokenKind, Tokens};
