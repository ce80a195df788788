// A client's message that came up is taken up.
ghost use Rattle.std.specs.Prelude.{◌≡◌, ℕ, true, IfOk, None, OnOk, Some};
ghost use Rattle.core_tables.specs.Tables.{tables_of};
ghost use Rattle.core_tables.specs.Taking.{AreNotedOf, IsDue, IsRunAs, IsRunDue, IsSentAs, IsTaken, IsUpAt, IsUpOr, answers, asked_of, passes, text_work, with_args, with_packets};
ghost use Rattle.client_seat.specs.Requests.{Runs, Says};
ghost use Rattle.private_model.specs.Commands as commands;
ghost use Rattle.std.specs.Option.{option_copied};
ghost use Rattle.core_tables.specs.declared.client.Client.{Client};

use crate::client::Client;
use crate::tables::Tables;
use client_desk::{Body, Work};
use client_seat::Request;
use link_state::{Command, Form};
use mx_base::{Bytes, ClientNo, Hostgroup, OutOfMemory};
use std::alloc::Global;

impl Client {
    // Its message is behind, and goes to no server.
    fn pass(&mut self, alloc: Global, flag: u16) -> Result<(), OutOfMemory>
        requires { IsUpAt self.old }
        ensures is { OnOk result (self.new ≡ passes flag self.new.desk.seat.statements self.old) }
        ensures noted { OnOk result (AreNotedOf true self.old self.new.desk.seat.statements) }
    {
        self.desk.seat.take(alloc, flag)?;
        self.went = None;
        Ok(())
    }

    // The router answers it, in these packets.
    fn answer(&mut self, alloc: Global, flag: u16, packets: &[u8]) -> Result<(), OutOfMemory>
        requires { IsUpAt self.old }
        ensures is { OnOk result (self.new ≡ answers flag packets.now self.new.desk.seat.statements self.old) }
        ensures noted { OnOk result (AreNotedOf true self.old self.new.desk.seat.statements) }
    {
        self.pass(alloc, flag)?;
        self.desk.seat.reply_piece(packets)?;
        self.desk.seat.reply();
        Ok(())
    }
}

impl Client {
    // It goes to a server, with this text in place of its own, and this statement becomes due, with the packets of what is asked for. False
    // where it asks for nothing that is sent as a text.
    fn send(
        &mut self,
        alloc: Global,
        flag: u16,
        text: Option<&[u8]>,
        work: Work,
    ) -> Result<bool, OutOfMemory>
        requires { IsUpAt self.old }
        ensures sent { IfOk result (λ is_due. is_due ≡ true
            → IsSentAs flag (option_copied text.entry) (with_packets work) self.old self.new) }
        ensures due { IfOk result (λ is_due. (command : commands.Command) → asked_of self.old (option_copied text.entry) ≡ Some (Says command)
            → is_due ≡ true) }
    {
        let hostgroup = work.hostgroup;
        match self.desk.seat.take_to(alloc, hostgroup, flag, text)? {
            Some(Request::Text { packets, .. }) => {
                self.went = Some(hostgroup);
                self.desk.due(Work {
                    body: Body::Packets(Bytes::from_vec(packets)),
                    ..work
                })?;
                Ok(true)
            }
            _ => Ok(false),
        }
    }

    // An execute goes to a server, and this statement becomes due, with its arguments. False where it executes nothing.
    fn run(&mut self, alloc: Global, flag: u16, work: Work) -> Result<bool, OutOfMemory>
        requires { IsUpAt self.old }
        ensures runs { IfOk result (λ is_due. is_due ≡ true
            → IsRunAs flag (with_args work) self.old self.new) }
        ensures due { IfOk result (λ is_due. (key : ℕ) (args : commands.Args) → asked_of self.old None ≡ Some (Runs key args)
            → is_due ≡ true) }
    {
        let hostgroup = work.hostgroup;
        match self.desk.seat.take_to(alloc, hostgroup, flag, None)? {
            Some(Request::Run { args, .. }) => {
                self.went = Some(hostgroup);
                self.desk.due(Work {
                    body: Body::Run(args),
                    ..work
                })?;
                Ok(true)
            }
            _ => Ok(false),
        }
    }
}

impl Tables {
    /// A client's message is behind, and goes to no server. Rules are tried first by this flag from now on.
    #[tactic(auto, unfolding(crate::specs::Tables::tables_of))]
    pub fn pass(&mut self, client: ClientNo, flag: u16) -> Result<(), OutOfMemory>
        requires { IsUpOr ((tables_of self.old).clients client) }
        ensures { OnOk result (IsTaken true (passes flag) client (tables_of self.old) (tables_of self.new)) }
    {
        match self.clients.get_mut(&client.0) {
            Some(row) => row.pass(self.alloc, flag),
            None => Ok(()),
        }
    }

    /// The router answers it itself, in these packets, whose sequence ids go on from the message's.
    #[tactic(auto, unfolding(crate::specs::Tables::tables_of))]
    pub fn answer(&mut self, client: ClientNo, flag: u16, packets: &[u8]) -> Result<(), OutOfMemory>
        requires { IsUpOr ((tables_of self.old).clients client) }
        ensures { OnOk result (IsTaken true (answers flag packets.now) client (tables_of self.old) (tables_of self.new)) }
    {
        match self.clients.get_mut(&client.0) {
            Some(row) => row.answer(self.alloc, flag, packets),
            None => Ok(()),
        }
    }

    /// It goes to a server in this hostgroup, with this text in place of its own, and a statement of this class becomes due. False where it asks
    /// for nothing that is sent as a text.
    #[tactic(auto, unfolding(crate::specs::Tables::tables_of))]
    pub fn due(
        &mut self,
        client: ClientNo,
        ordinal: u64,
        flag: u16,
        hostgroup: Hostgroup,
        text: Option<&[u8]>,
        multiplex: Option<bool>,
        form: Form,
        since_ms: u64,
    ) -> Result<bool, OutOfMemory>
        requires { IsUpOr ((tables_of self.old).clients client) }
        ensures { IfOk result (λ is_due. is_due ≡ true
            → IsDue flag (option_copied text.entry) (text_work ordinal hostgroup since_ms multiplex form) client (tables_of self.old) (tables_of self.new)) }
    {
        match self.clients.get_mut(&client.0) {
            Some(row) => {
                let marks = form.marks();
                let work = Work {
                    ordinal,
                    hostgroup,
                    since_ms,
                    anew: true,
                    multiplex,
                    key: 0,
                    command: Command::Plain,
                    marks,
                    form: Some(form),
                    body: Body::Away,
                    sent: false,
                };
                row.send(self.alloc, flag, text, work)
            }
            None => Ok(false),
        }
    }

    /// It goes to a server, with this text in place of its own, and this statement becomes due, with the packets of what is asked for. False
    /// where it asks for nothing that is sent as a text.
    #[tactic(auto, unfolding(crate::specs::Tables::tables_of))]
    pub fn due_as(
        &mut self,
        client: ClientNo,
        flag: u16,
        text: Option<&[u8]>,
        work: Work,
    ) -> Result<bool, OutOfMemory>
        requires { IsUpOr ((tables_of self.old).clients client) }
        ensures { IfOk result (λ is_due. is_due ≡ true
            → IsDue flag (option_copied text.entry) (with_packets work) client (tables_of self.old) (tables_of self.new)) }
    {
        match self.clients.get_mut(&client.0) {
            Some(row) => row.send(self.alloc, flag, text, work),
            None => Ok(false),
        }
    }

    /// An execute goes to a server, and this statement becomes due, with its arguments. False where it executes nothing.
    #[tactic(auto, unfolding(crate::specs::Tables::tables_of))]
    pub fn run(&mut self, client: ClientNo, flag: u16, work: Work) -> Result<bool, OutOfMemory>
        requires { IsUpOr ((tables_of self.old).clients client) }
        ensures { IfOk result (λ is_due. is_due ≡ true
            → IsRunDue flag (with_args work) client (tables_of self.old) (tables_of self.new)) }
    {
        match self.clients.get_mut(&client.0) {
            Some(row) => row.run(self.alloc, flag, work),
            None => Ok(false),
        }
    }
}
