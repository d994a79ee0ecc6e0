//! The dump of a folder is audited against the folder's object files, over any host and any sink.
#![tactic(auto)]

mod judge;
mod lines;
mod status;
mod top;

pub use status::{AuditStatus, AuditWhat};
pub use top::cellaudit;
