// A configuration is judged, and served by over a wire.
ghost use Rattle.std.specs.Prelude.{◌≡◌, ◌<◌, [], Some, OnOk, IfErr};
ghost use Rattle.mx_config.specs.Lawful.{IsLawful};
ghost use Rattle.mx_wire.specs.Log.{Log};
ghost use Rattle.proxy_run.specs.Serve.{Attended, AttendStops, IsEarly, IsServed, Served, ServeStops};

use crate::replay::configure;
use crate::stop::Stop;
use mx_config::Config;
use mx_wire::{Files, Wire};
use ready_loop::{ServeEnd, serve};
use shared_core::Core;
use std::alloc::Global;

/// How often the router waits at most: a thousand million times in each second of a hundred years.
const TURNS: u64 = 4_611_686_018_427_387_904;

/// Serves by a configuration, and waits so often at most.
pub(crate) fn attend<W: Wire>(
    alloc: Global,
    config: &Config,
    wire: &mut W,
    turns: u64,
) -> Result<(), Stop>
    requires fresh { (log : Log) → W.told wire.old ≡ Some log → log ≡ [] }
    requires lawful { IsLawful config.now }
    ensures ok { OnOk result (Attended config.now IsServed (W.told wire.new)) }
    ensures err { IfErr result (λ stop. AttendStops stop turns config.now (W.told wire.new) (W.port_faults wire.old) (W.port_faults wire.new)) }
    ensures rule { W.ruled_by wire.new ≡ W.ruled_by wire.old }
{
    let mut core = Core::new(alloc, config)?;
    let end = serve(alloc, &mut core, wire, turns);
    drop(core);
    match end {
        ServeEnd::Over => Ok(()),
        ServeEnd::Stopped => Ok(()),
        ServeEnd::ListenFault => Err(Stop::ListenFault),
        ServeEnd::TurnsSpent => Err(Stop::TurnsSpent),
        ServeEnd::OutOfMemory => Err(Stop::OutOfMemory),
    }
}

/// Serves by the configuration under the name, until the wire has nothing more, or an administrator has the router shut down.
pub fn serve_by<F: Files, W: Wire>(
    alloc: Global,
    name: &str,
    files: &mut F,
    wire: &mut W,
) -> Result<(), Stop>
    requires fresh { (log : Log) → W.told wire.old ≡ Some log → log ≡ [] }
    ensures ok { OnOk result (Served name.now (F.held files.old) IsServed (W.told wire.new)) }
    ensures untouched { IfErr result (λ stop. IsEarly stop → wire.new ≡ wire.old) }
    ensures err { IfErr result (λ stop. ServeStops stop name.now (F.held files.old) (F.faults files.old) (F.faults files.new) (W.told wire.new) (W.port_faults wire.old) (W.port_faults wire.new)) }
{
    let config = configure(alloc, name, files)?;
    attend(alloc, &config, wire, TURNS)
}
