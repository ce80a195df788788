// Named files that are read whole.
ghost use Rattle.std.specs.Prelude.{◌≡◌, ℕ, List, Option, IfOk};
ghost use Rattle.mx_wire.specs.Tells.{HasCause};
ghost use Rattle.mx_wire.specs.Outside.{HasUnder};

/// Why a file wasn't read.
#[derive(Clone, Copy, Debug)]
pub enum FileFault {
    Failed,
    OutOfMemory,
}

/// Files that are read whole, by name.
pub trait Files {
    /// The names with their bytes, where the files tell them.
    ghost held: { Self → Option (List (List ℕ × List ℕ)) };

    /// How often a read has failed.
    ghost faults: { Self → ℕ };

    /// The bytes under the name. Failed comes only where `faults` rose.
    fn read(&mut self, name: &str) -> Result<Vec<u8>, FileFault>
        ensures held { held self.new ≡ held self.old }
        ensures bytes { IfOk result (λ bytes. HasUnder name.now bytes.items (held self.old)) }
        ensures cause { HasCause (result ≡ Err FileFault.Failed) (faults self.old) (faults self.new) };
}
