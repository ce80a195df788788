// Why something isn't done.
ghost use Rattle.std.specs.Prelude.{◌≡◌};

use mx_base::OutOfMemory;

/// Why something isn't done: it isn't allowed, or memory was refused.
#[derive(Clone, Copy, Debug)]
pub enum Fault {
    Refused,
    OutOfMemory,
}

impl From<OutOfMemory> for Fault {
    ghost use Rattle.admin_port.specs.declared.fault.Fault.TheVariants as faults;

    ghost from_gives = { λ _ fault. fault ≡ faults.OutOfMemory };

    fn from(_: OutOfMemory) -> Self {
        Fault::OutOfMemory
    }
}
