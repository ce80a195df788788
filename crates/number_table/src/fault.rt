// Why a key gets no number.
use mx_base::OutOfMemory;

/// Why a key gets no number.
#[derive(Debug, Drop)]
pub enum TakeFault {
    /// The table has as many keys as it may, or the key as many holders.
    Full,
    OutOfMemory,
}

impl From<OutOfMemory> for TakeFault {
    ghost use Rattle.std.specs.Prelude.{◌≡◌};
    ghost use Rattle.number_table.specs.declared.fault.TakeFault.TheVariants as faults;

    ghost from_gives = { λ _ fault. fault ≡ faults.OutOfMemory };

    fn from(_error: OutOfMemory) -> Self {
        TakeFault::OutOfMemory
    }
}
