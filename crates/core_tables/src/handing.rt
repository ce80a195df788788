// A client's statement goes to a link, where it stands next, and what stands next is taken back.
ghost use Rattle.std.specs.Prelude.{◌≡◌, ◌+◌, ◌&&◌, if◌then◌else◌, not, false, nat_eq, nat_lt};
ghost use Rattle.std.specs.HashMap.{get};
ghost use Rattle.std.specs.Option.{option_map_or};
ghost use Rattle.client_desk.specs.declared.work.Work.{Work};
ghost use Rattle.core_tables.specs.Beginning.{client_given, first_number, next_back, packets_back, text_begun, text_stands, with_row};
ghost use Rattle.core_tables.specs.Parting.{IsRowChanged};
ghost use Rattle.core_tables.specs.Passing.{is_of};
ghost use Rattle.core_tables.specs.Tables.{IsSame, tables_of};

use crate::client::Client;
use crate::lending::is_of;
use crate::server::Server;
use crate::tables::Tables;
use lent_link::Begins;
use link_state::{Command, Form, Purpose};
use mx_base::{Bytes, LinkId};
use served_link::Stated;
use session_state::SessionName;
use std::collections::HashMap;
use stmt_map::ClientStatements;

/// The number by which a client will know what its statement prepares.
pub(crate) fn first_number(command: Command, statements: &ClientStatements) -> u32
    ensures { result ≡ first_number command statements.now }
{
    match command {
        Command::Prepare => next_of(statements.last),
        _ => 0,
    }
}

// The number behind this one, where there is one.
fn next_of(last: u32) -> u32
    ensures { result ≡ (if nat_lt last 4294967295 then last + 1 else 0) }
{
    if last < 4294967295 { last + 1 } else { 0 }
}

// The arguments of an execute stayed at the desk.
fn packets_back(command: Command, packets: Bytes) -> Option<Bytes>
    ensures { result ≡ packets_back command packets }
{
    match command {
        Command::Execute => None,
        _ => Some(packets),
    }
}

impl Client {
    // What is taken back is of its unsent work still.
    fn takes_back(&self, name: SessionName, ordinal: u64) -> bool
        ensures { result ≡ option_map_or
            (λ (work : Work). not work.sent && is_of name ordinal self.now.desk work) self.now.desk.work false }
    {
        match &self.desk.work {
            Some(work) => !work.sent && is_of(name, ordinal, &self.desk, work),
            None => false,
        }
    }

    // A statement of this form and these packets is taken back.
    fn given(&mut self, name: SessionName, ordinal: u64, form: Form, packets: Bytes)
        ensures { self.new ≡ client_given name ordinal form packets self.old }
    {
        if !self.takes_back(name, ordinal) {
            return;
        }
        if let Some(work) = &mut self.desk.work {
            work.give_back(form, packets_back(work.command, packets));
        }
    }
}

// It comes back to its client.
fn give_to(
    clients: &mut HashMap<u64, Client>,
    name: SessionName,
    ordinal: u64,
    form: Form,
    packets: Bytes,
)
    ensures { IsRowChanged name.client.0 (client_given name ordinal form packets)
        (get nat_eq clients.old) (get nat_eq clients.new) }
{
    if let Some(client) = clients.get_mut(&name.client.0) {
        client.given(name, ordinal, form, packets);
    }
}

impl Server {
    // A statement is to be written next there, where its form and its packets are at hand.
    fn states(&mut self, stated: Stated, form: Option<Form>, packets: Option<Bytes>)
        ensures { self.new ≡ with_row (text_stands stated form packets) self.old }
    {
        let Some(form) = form else {
            return;
        };
        let Some(packets) = packets else {
            return;
        };
        self.row.begin_text(stated, form, packets);
    }
}

impl Tables {
    /// A client's statement is to be written next on a link: its form and its packets go there, where both stand at the desk. Takes no
    /// memory.
    #[tactic(auto, unfolding(crate::specs::Tables::tables_of))]
    pub fn begin_text(&mut self, link: LinkId, name: SessionName)
        ensures { IsSame (tables_of self.new) (text_begun link name (tables_of self.old)) }
    {
        let Some(server) = self.links.get_mut(&link.0) else {
            return;
        };
        let Some(client) = self.clients.get_mut(&name.client.0) else {
            return;
        };
        let first = client.desk.seat.first;
        let statements = &client.desk.seat.statements;
        let Some(work) = &mut client.desk.work else {
            return;
        };
        let stated = Stated {
            name,
            ordinal: work.ordinal,
            key: work.key,
            multiplex: work.multiplex,
            first,
            number: first_number(work.command, statements),
        };
        let form = work.take_form();
        let packets = work.take_packets();
        server.states(stated, form, packets);
    }

    /// What stands next on a link is taken back: a statement to its client's desk, where it is that client's unsent work still. Takes no
    /// memory.
    #[tactic(auto, unfolding(crate::specs::Tables::tables_of))]
    pub fn take_back(&mut self, link: LinkId)
        ensures { IsSame (tables_of self.new) (next_back link (tables_of self.old)) }
    {
        let Some(server) = self.links.get_mut(&link.0) else {
            return;
        };
        let Some(next) = std::mem::replace(&mut server.row.link.next, None) else {
            return;
        };
        let writing = std::mem::replace(&mut server.row.link.writing, None);
        let Begins::Asks(asking) = next else {
            return;
        };
        let Some(writing) = writing else {
            return;
        };
        let Purpose::Statement { name, ordinal, .. } = asking.purpose else {
            return;
        };
        give_to(&mut self.clients, name, ordinal, asking.form, writing.bytes);
    }
}
