//! A host over large folders.

ghost use Rattle.std.specs.Prelude.{◌≡◌, ◌≢◌, ◌≤◌, ◌+◌, [], Err, length, OnOk, OnErr};

use crate::{Host, HostFault};
use std::alloc::{AllocError, Global};

/// A host whose folders have the file `s`, so many other names, and so many object files `k#cN.o`, which
/// all have the same bytes. It tells none of this, and never fails. So a large folder takes little
/// memory.
#[derive(Drop)]
pub struct RepeatHost {
    pub alloc: Global,
    pub names: u32,
    pub objects: u32,
    /// The bytes of `s`.
    pub script: Vec<u8>,
    /// The bytes of each object file.
    pub object: Vec<u8>,
}

impl RepeatHost {
    fn name(&self, number: u64) -> Result<String, AllocError> {
        if number == 0 {
            return String::from_str(self.alloc, "s");
        }
        if number <= u64::from(self.names) {
            return String::from_str(self.alloc, "x");
        }
        format!(in self.alloc; "k#c{number}.o")
    }

    fn add_names(&self, limit: u32, into: &mut Vec<String>) -> Result<(), AllocError>
        requires { into.old.items ≡ [] }
        ensures { length into.new.items ≤ limit + 1 }
    {
        let names = self.names;
        let objects = self.objects;
        let count = 1 + u64::from(names) + u64::from(objects);
        for number in 0..count {
            if number > u64::from(limit) {
                return Ok(());
            }
            into.push(self.name(number)?)?;
        }
        Ok(())
    }

    fn add_front(&self, name: &str, limit: u32, into: &mut Vec<u8>) -> Result<(), AllocError>
        requires { into.old.items ≡ [] }
        ensures { length into.new.items ≤ limit + 1 }
    {
        let bytes = if name == "s" {
            self.script.as_slice()
        } else {
            self.object.as_slice()
        };
        into.extend_from_slice(&bytes[..bytes.len().min(limit as usize + 1)])
    }
}

/// Want of memory leaves nothing.
fn conclude<T: Drop>(answer: Result<(), AllocError>, into: &mut Vec<T>) -> Result<(), HostFault>
    ensures emptied { OnErr result (into.new.items ≡ []) }
    ensures kept { OnOk result (into.new.items ≡ into.old.items) }
    ensures memory { result ≢ Err HostFault.Failed }
{
    if answer.is_err() {
        into.clear();
        return Err(HostFault::OutOfMemory);
    }
    Ok(())
}

impl Host for RepeatHost {
    ghost use Rattle.std.specs.Prelude.{None};

    ghost files = { λ _. None };

    ghost faults = { λ _. 0 };

    fn list(&mut self, _dir: &str, limit: u32, into: &mut Vec<String>) -> Result<(), HostFault> {
        into.clear();
        let answer = self.add_names(limit, into);
        conclude(answer, into)
    }

    fn read(
        &mut self,
        _dir: &str,
        name: &str,
        limit: u32,
        into: &mut Vec<u8>,
    ) -> Result<(), HostFault> {
        into.clear();
        let answer = self.add_front(name, limit, into);
        conclude(answer, into)
    }
}
