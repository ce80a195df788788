// Settings that leave transactions alone.
ghost use Rattle.std.specs.Prelude.{◌≡◌, IsTrue, IfOk};
ghost use Rattle.session_vars.specs.Settings.{is_text, value_at};
ghost use Rattle.state_replay.specs.Steps.{calm};

use mx_base::OutOfMemory;
use session_vars::{Change, Settings, Slot};
use std::alloc::Global;

/// The settings, but with autocommit as a link was told: a SET of autocommit would end a transaction.
pub fn calm(alloc: Global, settings: &Settings, told: &Settings) -> Result<Settings, OutOfMemory>
    requires { IsTrue (is_text (value_at settings.now Slot.Names)) }
    ensures is { IfOk result (λ all. all ≡ calm settings.now told.now) }
    ensures names { IfOk result (λ all. IsTrue (is_text (value_at all Slot.Names))) }
{
    let value = told.value(Slot::Autocommit).copy(alloc)?;
    let change = Change {
        slot: Slot::Autocommit,
        value,
        adds: false,
    };
    let mut all = settings.copy()?;
    all.apply(&[change])?;
    Ok(all)
}
