//! How a call ends.

ghost use Rattle.std.specs.Prelude.{◌≡◌, ◌≢◌};
ghost use Rattle.cell_verdict.specs.Verdict.{status_of};

use cell_input::Refusals;
use cell_num::{MAX_ALL_BYTES, MAX_DUMP_BYTES, MAX_FILE_BYTES, MAX_FILES, MAX_NAMES};

/// What there is too much of.
#[derive(Clone, Copy, Debug, PartialEq, Eq)]
pub enum AuditWhat {
    Names,
    Files,
    DumpBytes,
    FileBytes,
    AllBytes,
}

/// Why nothing is audited, if nothing failed.
#[derive(Clone, Copy, Debug, PartialEq, Eq)]
pub enum Reason {
    NoDump,
    TooLarge { what: AuditWhat, limit: u64 },
}

/// How a call ended.
#[derive(Clone, Copy, Debug, PartialEq, Eq)]
pub enum AuditStatus {
    /// The dump is what linking its machine anew would give.
    Clean,
    /// It has a fault, of which the first line was written.
    Fault,
    /// There aren't two words.
    Usage,
    /// The folder has no such name.
    NoDump,
    TooLarge { what: AuditWhat, limit: u64 },
    ReadFault,
    WriteFault,
    OutOfMemory,
}

/// What refuses an audit, each for its cause.
pub const REFUSALS: Refusals<Reason> = Refusals {
    absent: Reason::NoDump,
    names: Reason::TooLarge {
        what: AuditWhat::Names,
        limit: MAX_NAMES as u64,
    },
    files: Reason::TooLarge {
        what: AuditWhat::Files,
        limit: MAX_FILES as u64,
    },
    file_bytes: Reason::TooLarge {
        what: AuditWhat::FileBytes,
        limit: MAX_FILE_BYTES as u64,
    },
    all_bytes: Reason::TooLarge {
        what: AuditWhat::AllBytes,
        limit: MAX_ALL_BYTES,
    },
    text_bytes: Reason::TooLarge {
        what: AuditWhat::DumpBytes,
        limit: MAX_DUMP_BYTES as u64,
    },
};

pub fn status_of(reason: Reason) -> AuditStatus
    ensures status { result ≡ status_of reason }
    ensures no_usage { result ≢ AuditStatus.Usage }
{
    match reason {
        Reason::NoDump => AuditStatus::NoDump,
        Reason::TooLarge { what, limit } => AuditStatus::TooLarge { what, limit },
    }
}
