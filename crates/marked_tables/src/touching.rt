// Marks of the links that a change concerns.
ghost use Rattle.std.specs.Prelude.{◌≡◌};
ghost use Rattle.std.specs.Option.{option_copied};
ghost use Rattle.core_tables.specs.Tables.{tables_of};
ghost use Rattle.marked_tables.specs.Marking.{IsClearAt, IsClearFor, IsOther, IsUnasked, IsUncarried, Leaves, MarksBut, client_of, next_at, stage_at};

use crate::rows::{carried_on, has_row};
use core_says::mark_row;
use core_tables::{Server, Tables};
use lent_link::Begins;
use link_marks::Marks;
use link_state::{Purpose, Stage};
use mx_base::{ClientNo, LinkId};

/// A link is marked, where it is open. Takes no memory.
#[tactic(auto, using(crate::proofs::Marking::marks_one))]
pub(crate) fn mark_link(marks: &mut Marks, link: LinkId)
    ensures { MarksBut (IsOther link) marks.old marks.new }
{
    marks.mark(link);
}

/// So are those that a client's row has to do with. Takes no memory.
#[tactic(auto, unfolding(core_tables::specs::Tables::tables_of), using(crate::proofs::Marking::marks_none, crate::proofs::Marking::marks_row))]
pub(crate) fn mark_client(tables: &Tables, marks: &mut Marks, client: ClientNo)
    ensures { MarksBut (IsClearAt (tables_of tables.now) client) marks.old marks.new }
{
    if let Some(row) = tables.clients.get(&client.0) {
        mark_row(marks, row);
    }
}

// Of whoever that is.
#[tactic(auto, using(crate::proofs::Marking::marks_nobody))]
fn mark_for(tables: &Tables, marks: &mut Marks, client: Option<ClientNo>)
    ensures { MarksBut (IsClearFor (tables_of tables.now) client) marks.old marks.new }
{
    if let Some(client) = client {
        mark_client(tables, marks, client);
    }
}

// Whose session a question is for.
fn client_of(purpose: Purpose) -> Option<ClientNo>
    ensures { result ≡ client_of purpose }
{
    match purpose {
        Purpose::Statement { name, .. } => Some(name.client),
        Purpose::Prep { name, .. } => Some(name.client),
        Purpose::Sync { name } => Some(name.client),
        Purpose::Own => None,
        Purpose::End { name } => Some(name.client),
        Purpose::Capture { name } => Some(name.client),
    }
}

// The client for whom something is to begin on a link.
fn next_at(server: Option<&Server>) -> Option<ClientNo>
    ensures { result ≡ next_at (option_copied server.entry) }
{
    match &server?.row.link.next {
        Some(Begins::Asks(asking)) => client_of(asking.purpose),
        _ => None,
    }
}

// The client for whom something stands there.
fn stage_at(server: Option<&Server>) -> Option<ClientNo>
    ensures { result ≡ stage_at (option_copied server.entry) }
{
    match &server?.row.link.state.stage {
        Stage::Quiet => None,
        Stage::Asked(asking) => client_of(asking.purpose),
        Stage::Answered(asking) => client_of(asking.purpose),
    }
}

/// A link is marked, and those that the rows of the clients have to do with for whom something stands there, or is to begin. Takes no
/// memory.
#[tactic(auto, unfolding(core_tables::specs::Tables::tables_of), using(crate::proofs::Marking::marks_asked))]
pub(crate) fn mark_asked(tables: &Tables, marks: &mut Marks, link: LinkId)
    ensures { MarksBut (IsUnasked (tables_of tables.now) link) marks.old marks.new }
{
    mark_link(marks, link);
    mark_for(tables, marks, next_at(tables.links.get(&link.0)));
    mark_for(tables, marks, stage_at(tables.links.get(&link.0)));
}

/// A link is marked, and those that the row of the client has to do with whose session it carries. Takes no memory.
#[tactic(auto, unfolding(core_tables::specs::Tables::tables_of), using(crate::proofs::Marking::marks_carried))]
pub(crate) fn mark_carried(tables: &Tables, marks: &mut Marks, link: LinkId)
    ensures { MarksBut (IsUncarried (tables_of tables.now) link) marks.old marks.new }
{
    mark_link(marks, link);
    let client = match carried_on(tables, link) {
        Some(name) => Some(name.client),
        None => None,
    };
    mark_for(tables, marks, client);
}

/// A link is open no more; one that came twice, or has a row still, is open, and marked. Takes no memory.
#[tactic(auto, using(crate::proofs::Marking::leaves_one, crate::proofs::Marking::stays_one))]
pub(crate) fn leaves(tables: &Tables, marks: &mut Marks, link: LinkId)
    ensures { Leaves (tables_of tables.now) link marks.old marks.new }
{
    if has_row(tables, link) {
        marks.mark(link);
        return;
    }
    marks.leaves(link);
    marks.mark(link);
}
