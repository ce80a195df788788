// Files in memory.
ghost use Rattle.std.specs.Prelude.{◌≡◌, Some, IfOk, bytes_eq, option_map};
ghost use Rattle.std.specs.Map.{lookup};

use crate::calls::Calls;
use mx_base::{Bytes, OutOfMemory};
use mx_wire::{FileFault, Files};
use std::alloc::Global;
use std::marker::Model;

/// Bytes by name. The calls of the list that it is made with fail, counted from 1, and so does a read of a name that
/// isn't held.
#[derive(Drop)]
pub struct MemFiles {
    alloc: Global,
    files: Vec<(Bytes, Bytes)>,
    calls: Calls,
}

impl Model for MemFiles {
    ghost use Rattle.mem_wire.specs.Held.{HeldFiles};

    ghost Value = { HeldFiles };

    ghost view = { λ f. record { files = f.files.items; faults = f.calls } };
}

impl MemFiles {
    /// Files of these names and bytes. Takes no memory.
    pub fn new(alloc: Global, entries: Vec<(Bytes, Bytes)>, failing: Vec<u64>) -> Self
        ensures { result ≡ record { files = entries.items; faults = 0 } }
    {
        MemFiles {
            alloc,
            files: entries,
            calls: Calls::new(failing),
        }
    }
}

impl Files for MemFiles {
    ghost held = { λ f. Some f.files };

    ghost faults = { λ f. f.faults };

    fn read(&mut self, name: &str) -> Result<Vec<u8>, FileFault> {
        if !self.calls.next_fails() {
            match bytes_under(self.alloc, &self.files, name.as_bytes()) {
                Ok(Some(bytes)) => return Ok(bytes),
                Ok(None) => {}
                Err(OutOfMemory) => return Err(FileFault::OutOfMemory),
            }
        }
        self.calls.fail();
        Err(FileFault::Failed)
    }
}

// A copy of the bytes under the name.
fn bytes_under(
    alloc: Global,
    files: &[(Bytes, Bytes)],
    name: &[u8],
) -> Result<Option<Vec<u8>>, OutOfMemory>
    ensures { IfOk result (λ found. option_map (λ v. v.items) found ≡ lookup (bytes_eq name.now) files.now) }
{
    for (key, bytes) in files {
        if name == key.as_slice() {
            return Ok(Some(bytes.as_slice().to_vec(alloc)?));
        }
    }
    Ok(None)
}
