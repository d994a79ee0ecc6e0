//! Why there is nothing to work on.

use crate::folder::Refusals;
use cell_num::{MAX_ALL_BYTES, MAX_FILE_BYTES, MAX_FILES, MAX_NAMES, MAX_SCRIPT_BYTES};

/// What there is too much of.
#[derive(Clone, Copy, Debug, PartialEq, Eq)]
pub enum What {
    Names,
    Files,
    FileBytes,
    AllBytes,
    ScriptBytes,
}

/// Why a run ends before its first command, if nothing failed.
#[derive(Clone, Copy, Debug, PartialEq, Eq)]
pub enum Reason {
    NoScript,
    BadScript { line: u32 },
    TooLarge { what: What, limit: u64 },
}

/// What refuses a run, each for its cause.
pub const REFUSALS: Refusals<Reason> = Refusals {
    absent: Reason::NoScript,
    names: Reason::TooLarge {
        what: What::Names,
        limit: MAX_NAMES as u64,
    },
    files: Reason::TooLarge {
        what: What::Files,
        limit: MAX_FILES as u64,
    },
    file_bytes: Reason::TooLarge {
        what: What::FileBytes,
        limit: MAX_FILE_BYTES as u64,
    },
    all_bytes: Reason::TooLarge {
        what: What::AllBytes,
        limit: MAX_ALL_BYTES,
    },
    text_bytes: Reason::TooLarge {
        what: What::ScriptBytes,
        limit: MAX_SCRIPT_BYTES as u64,
    },
};
