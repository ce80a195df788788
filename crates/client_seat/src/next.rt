// What a client says next.
use crate::phase::Phase;
use crate::place::first_place;
use crate::seat::Seat;
use client_session::{Refusal, Setup, account_of, write_denial, write_own_ok, write_refusal};
use client_side::{ClientFault, ClientStep, login_limit};
use mx_base::OutOfMemory;
use server_side::Account;
use std::alloc::Global;

/// What a client says next.
#[derive(Clone, Copy)]
pub enum Next {
    /// Nothing that is whole and may be taken up.
    Nothing,
    /// A message, which stays found until it is taken up. The ordinal counts the client's messages from 1.
    Message { ordinal: u64 },
    /// Its login is denied, or what it says can't be; the error is due to it, and it ended.
    Ended,
}

impl Seat {
    ghost use Rattle.std.specs.Prelude.{◌≡◌, IsSome, OnOk, IfOk, IfSome};
    ghost use Rattle.packet_frame.specs.Packets.{spelling};
    ghost use Rattle.client_side.specs.Client.{login_of};
    ghost use Rattle.client_side.specs.Steps.{next_of};
    ghost use Rattle.client_session.specs.Answers.{fault_error};
    ghost use Rattle.client_seat.specs.Turns.{IsLoginStep, IsUp, admitted, logs_in, looks_in, next_message, parts_with, stepped_in, turned};

    // These packets are the last that the client is told.
    fn part(&mut self, packets: &[u8]) -> Result<(), OutOfMemory>
        ensures { OnOk result (self.new ≡ parts_with packets.now self.old) }
    {
        self.outbox.say(packets)?;
        self.end();
        Ok(())
    }

    // What is kept is nothing that may come.
    fn give_up(
        &mut self,
        alloc: Global,
        first: u8,
        fault: ClientFault,
        limit: u64,
    ) -> Result<(), OutOfMemory>
        ensures { OnOk result (self.new ≡
            parts_with (spelling first (fault_error limit fault)) self.old) }
    {
        let refusal = match fault {
            ClientFault::Hand(_) => Refusal::BadHandshake,
            ClientFault::Frame(fault) => Refusal::Frame { fault, limit },
        };
        let mut packet = Vec::new(alloc);
        write_refusal(alloc, &mut packet, first, refusal)?;
        self.part(&packet)
    }

    // The next message, where the last one is answered, and there is room.
    fn next_message(&mut self, alloc: Global, limit: u64) -> Result<Next, OutOfMemory>
        ensures is { IfOk result (λ next. record { seat = self.new; next = next }
            ≡ next_message limit self.old) }
        ensures up { IfOk result (λ next. IsUp next self.new) }
    {
        if !self.answered {
            return Ok(Next::Nothing);
        }
        match self.client.next()? {
            ClientStep::Message { ordinal, first } => {
                if self.has_room() {
                    self.first = first;
                    Ok(Next::Message { ordinal })
                } else {
                    Ok(Next::Nothing)
                }
            }
            ClientStep::Refused { first, fault } => {
                self.give_up(alloc, first, fault, limit)?;
                Ok(Next::Ended)
            }
            _ => Ok(Next::Nothing),
        }
    }

    // The client is logged in.
    fn admit(
        &mut self,
        alloc: Global,
        first: u8,
        account: Account,
        default_schema: &[u8],
    ) -> Result<(), OutOfMemory>
        requires { IsSome (login_of self.old.client.stage) }
        ensures { OnOk result (IfSome (login_of self.old.client.stage) (λ response. self.new
            ≡ admitted default_schema.now account response first self.old)) }
    {
        let Some(response) = self.client.login() else {
            unreachable!()
        };
        self.place = first_place(alloc, response, default_schema)?;
        self.collation = response.collation;
        let mut packet = Vec::new(alloc);
        write_own_ok(&mut packet, first)?;
        self.outbox.say(&packet)?;
        self.client.done();
        self.phase = Phase::Serving(account);
        Ok(())
    }

    // The client says who it is, and is logged in or denied.
    fn log_in(
        &mut self,
        alloc: Global,
        first: u8,
        setup: &Setup,
        default_schema: &[u8],
    ) -> Result<Next, OutOfMemory>
        requires { IsSome (login_of self.old.client.stage) }
        ensures is { IfOk result (λ next. IfSome (login_of self.old.client.stage)
            (λ response. record { seat = self.new; next = next }
            ≡ logs_in setup.now default_schema.now response first self.old)) }
        ensures up { IfOk result (λ next. IsUp next self.new) }
    {
        let Some(response) = self.client.login() else {
            unreachable!()
        };
        match account_of(alloc, setup, self.port, response, self.client.salt())? {
            Some(account) => {
                self.admit(alloc, first, account, default_schema)?;
                self.next_message(alloc, setup.limit())
            }
            None => {
                let mut packet = Vec::new(alloc);
                write_denial(
                    alloc,
                    &mut packet,
                    first,
                    setup,
                    self.port,
                    response,
                    self.client.salt(),
                )?;
                self.part(&packet)?;
                Ok(Next::Ended)
            }
        }
    }

    // How far its login is, with the request to switch.
    fn login_step(&mut self) -> Result<ClientStep, OutOfMemory>
        requires { self.old.phase ≡ Phase.LoggingIn }
        ensures is { IfOk result (λ step. record { step = step; seat = self.new } ≡ stepped_in
            (next_of self.old.client.stage self.old.client) self.old) }
        ensures login { IfOk result (λ step. IsLoginStep step self.new.client.stage) }
    {
        let step = self.client.next()?;
        if !self.client.outgoing().is_empty() {
            self.switched = true;
        }
        self.drain()?;
        Ok(step)
    }

    // How its login goes on.
    fn look_in(
        &mut self,
        alloc: Global,
        step: ClientStep,
        setup: &Setup,
        default_schema: &[u8],
    ) -> Result<Next, OutOfMemory>
        requires { IsLoginStep step self.old.client.stage }
        ensures is { IfOk result (λ next. record { seat = self.new; next = next }
            ≡ looks_in setup.now default_schema.now step self.old) }
        ensures up { IfOk result (λ next. IsUp next self.new) }
    {
        match step {
            ClientStep::Login { first } => self.log_in(alloc, first, setup, default_schema),
            ClientStep::Refused { first, fault } => {
                self.give_up(alloc, first, fault, login_limit(setup.limit()))?;
                Ok(Next::Ended)
            }
            _ => Ok(Next::Nothing),
        }
    }

    /// What the client says next, where that is whole. Its login is judged by the setup and answered on the way, and then it
    /// stands in the schema that it names, or else in this one. A message comes up where the one before it is answered, and less than a
    /// mebibyte is unwritten. A login that is denied is answered by error 1045 or 1115, bytes that are no login by 1043, and, behind all else,
    /// bytes that are no packets by 1153 or 1156; then the client ended. After OutOfMemory nothing is promised of the seat.
    pub fn next(
        &mut self,
        alloc: Global,
        setup: &Setup,
        default_schema: &[u8],
    ) -> Result<Next, OutOfMemory>
        ensures is { IfOk result (λ next. record { seat = self.new; next = next }
            ≡ turned setup.now default_schema.now self.old) }
        ensures up { IfOk result (λ next. IsUp next self.new) }
    {
        match self.phase {
            Phase::LoggingIn => {
                let step = self.login_step()?;
                self.look_in(alloc, step, setup, default_schema)
            }
            Phase::Serving(_) => self.next_message(alloc, setup.limit()),
            Phase::Ended => Ok(Next::Nothing),
        }
    }
}
