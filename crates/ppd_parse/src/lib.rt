//! The tokens of a source, or its first lexical fault; and the tree of a list of tokens, or the first token that breaks the
//! grammar or a limit.
#![tactic(auto)]

mod error;
mod grammar;
mod grove;
mod growth;
mod kind;
mod laws;
mod lex_laws;
mod lexing;
mod machine;
mod node;
mod numbering;
mod reading;
mod scan;
mod symbol;
mod text;
mod token;
mod want;

pub use error::SyntaxError;
pub use kind::kind_of;
pub use laws::{leaves_are_tokens, one_answer};
pub use lex_laws::{gaps_are_blank, longest_is_taken, one_list_of_tokens};
pub use lexing::lex;
pub use node::{Node, Tree};
pub use reading::{parse, parse_in};
pub use symbol::Rule;
pub use token::{Kind, LexError, Token, TokenKind};
