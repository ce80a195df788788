// Why a loop ended.
ghost use Rattle.std.specs.Prelude.{◌≡◌, is_ok, IfErr};

use mx_base::OutOfMemory;

/// Why a loop ended.
#[derive(Clone, Copy)]
pub enum ServeEnd {
    /// The machine has stopped.
    Stopped,
    /// The wire said that nothing further will be ready.
    Over,
    /// A port or a wait failed.
    ListenFault,
    /// The waits that were allowed are used up, or as many calls of the wire were made since the last wake as one may
    /// make.
    TurnsSpent,
    /// Memory was refused.
    OutOfMemory,
}

impl From<OutOfMemory> for ServeEnd {
    ghost use Rattle.std.specs.Prelude.{◌≡◌};
    ghost use Rattle.ready_loop.specs.declared.ends.ServeEnd.TheVariants as ended;

    ghost from_gives = { λ _ end. end ≡ ended.OutOfMemory };

    fn from(_: OutOfMemory) -> Self {
        ServeEnd::OutOfMemory
    }
}

/// Whether the loop goes on, where only memory can be refused.
pub fn unless_refused(given: Result<(), OutOfMemory>) -> Result<(), ServeEnd>
    ensures ok { is_ok result ≡ is_ok given }
    ensures err { IfErr result (λ end. end ≡ ServeEnd.OutOfMemory) }
{
    match given {
        Ok(()) => Ok(()),
        Err(_) => Err(ServeEnd::OutOfMemory),
    }
}
