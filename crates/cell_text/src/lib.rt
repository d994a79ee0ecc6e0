//! Text as bytes: its lines and words, and numbers in it.
#![tactic(auto)]

mod number;
mod pieces;

pub use number::{put_dec, put_hex, put_hex_byte, read_dec, read_hex};
pub use pieces::{Span, lines, words};
