//! The bytes that are spelt for an execute read back as that execute, of each that stands on a link in a lawful story, where its arguments are
//! whole: its own bytes, and what was bound before.
#![tactic(auto)]

ghost use Rattle.std.specs.Prelude.{◌<◌, ℕ, Some};
ghost use Rattle.private_model.specs.Commands.{Args};
ghost use Rattle.private_model.specs.Lawful.{IsLawful};
ghost use Rattle.private_model.specs.Names.{LinkId};
ghost use Rattle.private_model.specs.Story.{Story};
ghost use Rattle.private_model.specs.View.{Setup, view_after};
ghost use Rattle.log_story.specs.Honest.{IsExecute};
ghost use Rattle.link_state.specs.Spells.{executes};
ghost use Rattle.run_laws.specs.Becoming.{AllBecame};
ghost use Rattle.run_laws.specs.Reads.{AllHeard, HasItsArgs, ReadsAsked};
ghost use Rattle.run_laws.specs.Wholes.{AreWhole};

/// An execute as it is spelt, with each parameter's long data in one piece before it, is the execute of this number, with these
/// arguments.
pub fn executes_read_back()
    ensures { (params number : ℕ) (args : Args) → number < 4294967296 → AreWhole params args
        → IsExecute (Some number) args (executes number args.nulls args.types args.values args.long) }
{}

/// So in a lawful story an execute that stands on a link reads as it is spelt, where each had whole arguments as it became due, and servers told numbers of 32 bits.
pub fn executes_are_readable()
    ensures { (setup : Setup) (story : Story) → IsLawful setup story → AllBecame setup HasItsArgs story → AllHeard story → (l : LinkId)
        → ReadsAsked ((view_after setup story).links l).stage ((view_after setup story).links l).live }
{}
