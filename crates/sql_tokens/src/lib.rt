//! Tokens of SQL statements, over any bytes.
#![tactic(auto)]

mod bytes;
mod comment;
mod laws;
mod number;
mod quote;
mod rule;
mod token;
mod tokens;
mod variable;
mod word;

pub use bytes::{behind, front};
pub use laws::{block_end, closing_quote, longest_number, one_token_list};
pub use token::{Token, TokenKind};
pub use tokens::Tokens;
pub use word::{bytes_of, inside, is_one_of, is_symbol, is_word, same_text, says, word_of};
