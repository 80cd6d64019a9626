//! Cuts the text of a Varlink interface definition into items: words, marks and notes, each with its
//! place.
#![tactic(auto)]

mod lexer;
mod tokens;

pub use lexer::{items, one_list};
pub use tokens::{Item, ItemKind, TokenFault};
