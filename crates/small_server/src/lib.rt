//! A small server that keeps the ten laws, so that they can be met; and stories over it: a lawful one, and for each of eight
//! rules of sending one that breaks it and on which the promise fails.
#![tactic(auto)]

ghost use Rattle.std.specs.Prelude.{◌≡◌, false, Some};
ghost use Rattle.private_model.specs.Honest.{IsHonest};
ghost use Rattle.private_model.specs.Lawful.{IsLawful};
ghost use Rattle.private_model.specs.Worlds.{private_after};
ghost use Rattle.server_rule.specs.Classes.{Reads};
ghost use Rattle.server_rule.specs.Laws.{IsTame};
ghost use Rattle.small_server.specs.Stories.{IsBreach, message, server, setup, shared, in_a_transaction, on_another_link, with_another_id, with_another_id_inside, with_diagnostics, without_a_capture, without_a_reset, without_its_place};
ghost use Rattle.small_server.specs.Tally.{LaterId, ok, tally, tests};

mod refuser;

use private_model::private_world;
pub use refuser::Refuser;

/// The small server is tame, whatever is read of texts.
pub fn laws_can_be_met()
    ensures { (reads : Reads) → IsTame reads tests (tally reads) }
{}

/// Two clients share a link, lawfully and honestly, and the second is answered as by a session of its own.
pub fn premises_can_be_met()
    ensures lawful { IsLawful setup shared }
    ensures honest { IsHonest setup server shared }
    ensures answered { (private_after setup server shared).answers (message 2 1) ≡ Some (record { to_prepare = false; payloads = ok false LaterId false }) }
{}

/// Each of these stories breaks a rule of sending, and may happen, and on each the promise fails: a link that is given
/// back, and lent again, while a transaction is open; the same where its session was left, without a reset; a statement on
/// a link that wasn't told its client's schema; a marked statement on a link that has another client's insert id, at once
/// and in a transaction; a statement that reads diagnostics, in a session that keeps no link; a statement of a transaction
/// on another link than its own; and a marked statement where the session's insert id wasn't captured.
pub fn no_rule_is_in_vain()
    ensures in_a_transaction { IsBreach in_a_transaction }
    ensures without_a_reset { IsBreach without_a_reset }
    ensures without_its_place { IsBreach without_its_place }
    ensures with_another_id { IsBreach with_another_id }
    ensures with_another_id_inside { IsBreach with_another_id_inside }
    ensures with_diagnostics { IsBreach with_diagnostics }
    ensures on_another_link { IsBreach on_another_link }
    ensures without_a_capture { IsBreach without_a_capture }
{
    private_world();
}
