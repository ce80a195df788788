// What calls add to the log.
ghost use Rattle.mx_wire.specs.Adds.{Adds};
ghost use Rattle.mem_wire.specs.Adds.{Calls, late_entries};

use crate::late::Late;
use mx_wire::{Entry, ToldLog};

/// Adds late marks.
pub(crate) fn add_marks(told: &mut ToldLog, late: &Late)
    ensures { Adds told.old (late_entries late.now) told.new }
{
    for mark in late.marks.as_slice() {
        told.add(mark.on(late.link));
    }
}

/// Adds late marks, and a call's entry behind them.
pub(crate) fn add_call(told: &mut ToldLog, late: &Late, entry: Entry)
    ensures { Calls told.old (late_entries late.now) entry told.new }
{
    add_marks(told, late);
    told.add(entry);
}
