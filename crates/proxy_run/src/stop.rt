// Why a run stops short.
use mx_base::OutOfMemory;
use mx_config::ConfigFault;
use recording::RecordFault;

/// Why a run stops short of putting all that it was asked for.
#[derive(Drop)]
pub enum Stop {
    /// The words are no command.
    Usage,
    /// The configuration or the recording can't be read.
    ReadFault,
    /// The sink failed.
    SinkFault,
    /// Memory was refused.
    OutOfMemory,
    /// The configuration isn't right.
    BadConfig(ConfigFault),
    /// The recording isn't right.
    BadRecording(RecordFault),
    /// A port or a wait failed.
    ListenFault,
    /// One wake took too many calls, or there were too many wakes.
    TurnsSpent,
}

impl From<OutOfMemory> for Stop {
    ghost use Rattle.std.specs.Prelude.{◌≡◌};
    ghost use Rattle.proxy_run.specs.declared.stop.Stop.TheVariants as stop;

    ghost from_gives = { λ _ given. given ≡ stop.OutOfMemory };

    fn from(_: OutOfMemory) -> Self {
        Stop::OutOfMemory
    }
}
