//! An object file as a reader looks at it: its header, the rows and names at their places, what is
//! kept of them, and why it is not read.
#![tactic(auto)]

mod cover;
mod fail;
mod file;
mod header;
mod keep;
mod names;
mod skips;
mod strings;

pub use cover::{Field, Fields, Mark};
pub use fail::ReadFail;
pub use file::{ends_within, has_flag, is_alloc, refuse_where, rela_row_at, symbol_row_at};
pub use header::File;
pub use keep::{Beside, Keep};
pub use names::Names;
pub use skips::{Skips, is_passed_over};
pub use strings::Strings;
