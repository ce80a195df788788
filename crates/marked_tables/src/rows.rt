// Rows of the tables.
ghost use Rattle.std.specs.Prelude.{◌≡◌};
ghost use Rattle.core_tables.specs.Parting.{name_in};
ghost use Rattle.core_tables.specs.Tables.{tables_of};
ghost use Rattle.marked_tables.specs.Goes.{has_row};
ghost use Rattle.marked_tables.specs.Marking.{carried_at};

use core_tables::Tables;
use link_state::Carried;
use mx_base::LinkId;
use session_state::SessionName;

// Whose session a link carries.
pub(crate) fn name_in(carries: Carried) -> Option<SessionName>
    ensures { result ≡ name_in carries }
{
    match carries {
        Carried::Nobody => None,
        Carried::Lent(name) => Some(name),
        Carried::Joined(name) => Some(name),
    }
}

/// The session that a link carries.
#[tactic(auto, unfolding(core_tables::specs::Tables::tables_of))]
pub(crate) fn carried_on(tables: &Tables, link: LinkId) -> Option<SessionName>
    ensures { result ≡ carried_at ((tables_of tables.now).links link) }
{
    match tables.links.get(&link.0) {
        Some(server) => name_in(server.row.link.state.carries),
        None => None,
    }
}

/// Whether a server or a client is there by this link.
#[tactic(auto, unfolding(core_tables::specs::Tables::tables_of))]
pub(crate) fn has_row(tables: &Tables, link: LinkId) -> bool
    ensures { result ≡ has_row (tables_of tables.now) link }
{
    tables.links.get(&link.0).is_some() || tables.numbers.get(&link.0).is_some()
}
