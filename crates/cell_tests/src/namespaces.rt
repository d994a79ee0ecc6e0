//! One namespace more than there may be.

use crate::folder::outcome;
use cell_run::Status;
use std::alloc::{AllocError, Global};
use std::test::Fail;

/// 255 namespaces beside `k`, and one more.
fn namespaces(alloc: Global) -> Result<String, AllocError> {
    let mut script = String::new(alloc);
    for number in 0..256 {
        script.push_str(format!(in alloc; "ns n{number} under k\n")?.as_str())?;
    }
    Ok(script)
}

#[test]
fn a_namespace_too_many(rt: HostRuntime) -> Result<(), Fail> {
    let script = namespaces(rt.alloc())?;
    let (status, sink) = outcome(rt.alloc(), &["d", "s"], script.as_str(), &[])?;
    let text = std::str::from_utf8(sink.written()).ok().ok_or("UTF-8")?;
    assert!(rt; status == Status::SomeRefused);
    let wanted = "\n255 ok ns n254\n256 E4 too-many namespaces 256\n";
    assert!(rt; text.ends_with(wanted), "{text}");
    Ok(())
}
