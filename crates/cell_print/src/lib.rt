//! The lines of a transcript.
#![tactic(auto)]

mod dump;
mod line;
mod links;
mod map;
mod piece;
mod refusal;
mod reply;
mod tasks;
mod word;

pub use line::{put_answer, put_line};
pub use piece::Piece;
pub use refusal::put_refusal;
pub use reply::put_reply;
