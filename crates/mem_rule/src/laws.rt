// The laws of a tame server, of the step of this one.
ghost use Rattle.server_rule.specs.Classes.{router_reads};
ghost use Rattle.server_rule.specs.Laws.{AccountLaw, BlindLaw, FlagsLaw, IdLaw, IsTame, KeepsTests, PrepareLaw, ReplyLaw, ResetLaw, SchemaLaw, TextLaw, TrackedLaw, UnlockLaw};
ghost use Rattle.server_rule.specs.Servers.{Runs};
ghost use Rattle.server_rule.specs.declared.command.Cmd.{Cmd};
ghost use Rattle.server_rule.specs.declared.session.Session.{Session};
ghost use Rattle.std.specs.Prelude.{◌≡◌, ℕ, List};
ghost use Rattle.mem_rule.specs.Commands.{RunsIn};
ghost use Rattle.mem_rule.specs.Stored.{step, stored_after, tables_in, tables_out, tests};
ghost use Rattle.mem_rule.specs.Tables.{Tables, after_all};
ghost use Rattle.mem_rule.specs.declared.note.Note.{Note};

/// The data that are written out as a list are read again, so that whoever runs a command on the data takes a step on
/// that list.
pub fn stored_again()
    ensures read { (t : Tables) → tables_in (tables_out t) ≡ t }
    ensures done { (t : Tables) (notes : List Note) → stored_after (tables_out t) notes ≡ tables_out (after_all t notes) }
    ensures run { (t : Tables) (s : Session) (c : Cmd) (t' : Tables) (s' : Session) (payloads : List (List ℕ)) → RunsIn t s c t' s' payloads → Runs step (tables_out t) s c (tables_out t') s' payloads }
{}

/// The account of a session stays.
pub fn account_law()
    ensures { AccountLaw tests step }
{}

/// Resets and the ends of connections.
pub fn reset_law()
    ensures { ResetLaw router_reads tests step }
{}

/// Tracked settings.
pub fn tracked_law()
    ensures { TrackedLaw router_reads tests step }
{}

/// Schemas.
pub fn schema_law()
    ensures { SchemaLaw router_reads tests step }
{}

/// Preparations.
pub fn prepare_law()
    ensures { PrepareLaw tests step }
{}

/// A step of a session that the server takes leaves such a one.
pub fn keeps_tests_law()
    ensures { KeepsTests tests step }
{}

/// Status flags.
pub fn flags_law()
    ensures { FlagsLaw tests step }
{}

/// Locks that are freed.
pub fn unlock_law()
    ensures { UnlockLaw router_reads tests step }
{}

/// Replies of one payload.
pub fn reply_law()
    ensures { ReplyLaw router_reads tests step }
{}

/// Ordinary texts.
pub fn text_law()
    ensures { TextLaw router_reads tests step }
{}

/// Insert ids.
pub fn id_law()
    ensures { IdLaw router_reads tests step }
{}

/// Independence of the insert id and of the diagnostics.
pub fn blind_law()
    ensures { BlindLaw router_reads tests step }
{}

/// All of them.
pub fn tame()
    ensures { IsTame router_reads tests step }
{}
