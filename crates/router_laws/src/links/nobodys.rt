// Entries of links to servers by which nobody is called.
ghost use Rattle.std.specs.Prelude.{◌≡◌, Bool, Some, is_some, take, ℕ};
ghost use Rattle.mx_base.specs.Sent as offers;
ghost use Rattle.mx_base.specs.declared.names.Address.{Address};
ghost use Rattle.mx_wire.specs.Log.{Log};
ghost use Rattle.mx_wire.specs.Tells.{IsNew};
ghost use Rattle.mx_wire.specs.declared.entry.Entry.TheVariants.{Opened, Wrote};
ghost use Rattle.server_side.specs.Account.{Account};
ghost use Rattle.client_session.specs.Setups.{Setup as Service};
ghost use Rattle.private_model.specs.Names.{ClientNo, LinkId, ServerId};
ghost use Rattle.private_model.specs.View.{Setup};
ghost use Rattle.link_laws.specs.Stands.{Codes};
ghost use Rattle.log_story.specs.Headline.{tale_of};
ghost use Rattle.log_story.specs.Plan.{Plan, StepText};
ghost use Rattle.log_story.specs.Servers.{may_begin};
ghost use Rattle.log_story.specs.Telling.{tale_step};
ghost use Rattle.tale_world.specs.Decided.{Decided};
ghost use Rattle.core_tables.specs.Tables.{Tabled};
ghost use Rattle.core_stands.specs.Grounds.{Ground};
ghost use Rattle.core_stands.specs.Stands.{Rests, Stands};
ghost use Rattle.core_laws.specs.writing.Planned.{planned_on};
ghost use Rattle.core_laws.specs.entry.Cores.{GoesOn};
ghost use Rattle.core_laws.specs.entry.Tells.{ground};
ghost use Rattle.router_laws.specs.clients.Plans.{IsDecided, nobody, over_by};
ghost use Rattle.router_laws.specs.links.Opens.{OpensSo};
ghost use Rattle.router_laws.specs.links.Steps.{begins_on, step_on};
ghost use Rattle.router_laws.specs.links.Writes.{WritesSo};

use crate::links::named::{new_links_are_none, steps_are_planned};

/// A link to a server is opened, which no entry named before. Clients are as they were.
pub fn opens_go()
    ensures goes { (service : Service) (setup : Setup) (codes : Codes) (plan : Plan) (log : Log) (old new : Decided) (t now : Tabled)
        (roomy : ClientNo → Bool) (server : ServerId) (address : Address) (l : LinkId) (login : Account) → IsNew l log
        → IsDecided (ground setup codes plan old log) nobody (over_by new) → plan.logins l ≡ login → OpensSo l server login t now
        → GoesOn service setup codes plan log (Opened server address l) old new t now roomy roomy }
    ensures clients { (service : Service) (setup : Setup) (codes : Codes) (plan : Plan) (log : Log) (old new : Decided) (t now : Tabled)
        (roomy : ClientNo → Bool) (server : ServerId) (address : Address) (l : LinkId) (login : Account) → IsNew l log
        → IsDecided (ground setup codes plan old log) nobody (over_by new) → plan.logins l ≡ login → OpensSo l server login t now
        → Rests service (ground setup codes plan old log) t roomy
        → (tale_step setup plan (tale_of setup plan log) (Opened server address l)).clients ≡ (tale_of setup plan log).clients }
{
    core_laws::entry::counts_alone();
    core_laws::parting::freed_stands();
    core_laws::parting::same_stands();
    core_laws::writing::links_open();
    new_links_are_none();
}

/// Bytes of what the tables lend are written on a link to a server: in the login, of what began, or of what begins with them, which is what the
/// plan has begin there. Clients are as they were, and something begins just where something stands next.
pub fn writes_go()
    ensures goes { (service : Service) (setup : Setup) (codes : Codes) (plan : Plan) (log : Log) (old new : Decided) (t now : Tabled)
        (roomy : ClientNo → Bool) (l : LinkId) (offer : offers.Sent) (count : ℕ)
        → IsDecided (ground setup codes plan old log) nobody (over_by new)
        → ((step : StepText) → step_on l t ≡ Some step → planned_on (ground setup codes plan old log) l ≡ step) → WritesSo l offer count t now
        → GoesOn service setup codes plan log (Wrote l offer.tag (take count offer.bytes)) old new t now roomy roomy }
    ensures clients { (service : Service) (setup : Setup) (codes : Codes) (plan : Plan) (log : Log) (old new : Decided) (t now : Tabled)
        (roomy : ClientNo → Bool) (l : LinkId) (offer : offers.Sent) (count : ℕ)
        → IsDecided (ground setup codes plan old log) nobody (over_by new)
        → ((step : StepText) → step_on l t ≡ Some step → planned_on (ground setup codes plan old log) l ≡ step) → WritesSo l offer count t now
        → Rests service (ground setup codes plan old log) t roomy
        → (tale_step setup plan (tale_of setup plan log) (Wrote l offer.tag (take count offer.bytes))).clients ≡ (tale_of setup plan log).clients }
    ensures begins { (service : Service) (g : Ground) (t now : Tabled) (l : LinkId) (offer : offers.Sent) (count : ℕ) → Stands service g t
        → WritesSo l offer count t now → may_begin g.setup l (g.tale.wires l) g.tale ≡ is_some (begins_on l t) }
{
    core_laws::entry::counts_alone();
    core_laws::entry::closes_come_first();
    core_laws::parting::freed_stands();
    core_laws::parting::same_stands();
    row_laws::rows_may_begin();
    core_laws::writing::writes_stand();
    core_laws::writing::passes_may_tell();
    steps_are_planned();
}
