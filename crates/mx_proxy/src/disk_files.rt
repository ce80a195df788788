// Files of the disk.
ghost use Rattle.std.specs.Prelude.{None, length};

use http_server::Log;
use mx_wire::{FileFault, Files};
use std::fs::File;
use std::io::{self, ErrorKind, Read};

/// The longest file that is read, in bytes.
const MOST_BYTES: u64 = 1_073_741_824;

/// Files of the disk. They don't tell what they hold.
#[derive(Drop)]
pub struct DiskFiles<'a> {
    rt: &'a HostRuntime,
    failed: Log<(), ()>,
}

impl<'a> DiskFiles<'a> {
    /// The files that the runtime opens.
    pub fn new(rt: &'a HostRuntime) -> Self {
        DiskFiles {
            rt,
            failed: Log::new(),
        }
    }
}

impl Files for DiskFiles<'_> {
    ghost held = { λ files. None };

    ghost faults = { λ files. length files.failed.items };

    fn read(&mut self, name: &str) -> Result<Vec<u8>, FileFault> {
        match read_whole(self.rt, name) {
            Ok(bytes) => Ok(bytes),
            Err(error) if error.kind() == ErrorKind::OutOfMemory => Err(FileFault::OutOfMemory),
            Err(_) => {
                self.failed = self.failed.and(&(), &());
                Err(FileFault::Failed)
            }
        }
    }
}

// The bytes of a file that isn't too long.
fn read_whole(rt: &HostRuntime, name: &str) -> io::Result<Vec<u8>> {
    let mut bytes = Vec::new(rt.alloc());
    let file = File::open(rt, name)?;
    file.take(MOST_BYTES + 1).read_to_end(&mut bytes)?;
    if bytes.len() as u64 > MOST_BYTES {
        return Err(io::Error::from(ErrorKind::FileTooLarge));
    }
    Ok(bytes)
}
