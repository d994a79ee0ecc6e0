//! How a turn ended.

use cell_num::Cause;

/// How a task stands after a turn: it goes on, it goes on but yields, it ended with a code, or its
/// instruction at that pc trapped.
#[derive(Clone, Copy, Debug, PartialEq, Eq)]
pub enum Turned {
    Ready,
    Yield,
    Done(u64),
    Fault(Cause, u64),
}
