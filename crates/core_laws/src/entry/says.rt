// What the router says on links to servers.
ghost use Rattle.std.specs.Prelude.{◌≡◌, false, is_some, true};
ghost use Rattle.mx_base.specs.declared.tag.Tag.{Tag};
ghost use Rattle.mx_wire.specs.declared.entry.Entry.TheVariants.{Wrote};
ghost use Rattle.mx_wire.specs.declared.entry.Entry.{Entry};
ghost use Rattle.std.specs.Prelude.{List, ℕ};
ghost use Rattle.client_session.specs.Setups.{Setup as Service};
ghost use Rattle.private_model.specs.Names.{LinkId};
ghost use Rattle.private_model.specs.View.{Setup};
ghost use Rattle.log_story.specs.Plan.{Plan};
ghost use Rattle.log_story.specs.Said.{ClosesFirst, SaysSo, SaysThere};
ghost use Rattle.log_story.specs.Tale.{Tale, is_to_server, view_of};
ghost use Rattle.log_story.specs.Telling.{tale_step};
ghost use Rattle.run_laws.specs.Reads.{AllHeard, ReadsAsked};
ghost use Rattle.link_laws.specs.Stands.{Codes};
ghost use Rattle.served_link.specs.declared.row.Row.{Row};
ghost use Rattle.row_laws.specs.Rows.{IsRowIn};
ghost use Rattle.core_tables.specs.Tables.{Tabled};
ghost use Rattle.core_stands.specs.Grounds.{Ground, on};
ghost use Rattle.core_stands.specs.Stands.{Stands};
ghost use Rattle.core_laws.specs.entry.Speaks.{IsSilent, IsSilentOrSpoken};

/// What is written on a link is what there is to say there, by its row, where an execute reads as it is spelt; where an entry is silent of it, that stays so.
pub fn links_say()
    ensures by_row { (setup : Setup) (codes : Codes) (plan : Plan) (tale : Tale) (l : LinkId) (row : Row) → IsRowIn setup codes plan tale l row
        → ReadsAsked ((view_of setup tale).links l).stage ((view_of setup tale).links l).live → ((tale.wires l).entered ≡ false → row.link.spoilt ≡ false)
        → SaysThere setup plan tale l }
    ensures still { (setup : Setup) (plan : Plan) (tale : Tale) (e : Entry) (l : LinkId) → IsSilent setup plan tale e l
        → SaysThere setup plan tale l → SaysThere setup plan (tale_step setup plan tale e) l }
{}

/// So it is on all links at an entry: one that was there, and of which the entry is silent, or one that has a row behind it.
pub fn all_say_so()
    ensures { (service : Service) (g : Ground) (t : Tabled) (e : Entry) → SaysSo g.setup g.plan g.tale
        → Stands service (on g (tale_step g.setup g.plan g.tale e)) t → AllHeard (tale_step g.setup g.plan g.tale e).story
        → ((l : LinkId) → is_to_server (tale_step g.setup g.plan g.tale e) l ≡ true
        → IsSilentOrSpoken g.setup g.plan g.tale e (tale_step g.setup g.plan g.tale e) t l)
        → SaysSo g.setup g.plan (tale_step g.setup g.plan g.tale e) }
{}

/// On a link that has a row a STMT_CLOSE or a STMT_RESET is whole before anything else begins.
pub fn closes_come_first()
    ensures { (service : Service) (g : Ground) (t : Tabled) (link : LinkId) (tag : Tag) (bytes : List ℕ) → Stands service g t
        → is_some (t.links link) ≡ true → ClosesFirst g.setup g.tale (Wrote link tag bytes) }
{}
