// Clients come and speak.
ghost use Rattle.std.specs.Prelude.{◌≡◌, OnOk, None, Some, false, true};
ghost use Rattle.core_texts.specs.Texts.{HasBegun};
ghost use Rattle.client_seat.specs.Seats.{is_ended};
ghost use Rattle.core_tables.specs.declared.client.Client.{Client};
ghost use Rattle.router_laws.specs.clients.Comes.{ComesSo, Served, TurnedAway};
ghost use Rattle.router_laws.specs.clients.Speaks.{IsLinkOf};
ghost use Rattle.marked_tables.specs.Goes.{reads_on};
ghost use Rattle.mx_wire.specs.declared.entry.Entry.TheVariants as entry;
ghost use Rattle.shared_core.specs.Clients.{HasSpoken};
ghost use Rattle.shared_core.specs.Follows.{Keeps, KeepsBut, made_by};
ghost use Rattle.shared_core.specs.Stands.{Carries, IsSettled, Moves, tables};

use crate::router::Router;
use client_seat::Seat;
use core_service::Service;
use core_tables::ClientNote;
use mx_base::{ClientNo, LinkId, OutOfMemory, Port};

// What is noted of a client as it comes.
fn no_note() -> ClientNote {
    ClientNote {
        slot: 0,
        key: None,
        readied: None,
        served: false,
        broken: false,
        counted: 0,
    }
}

impl Router {
    /// A link comes. It is served where there is room for it at its port, or turned away.
    pub(crate) fn accepted(
        &mut self,
        service: &Service,
        port: Port,
        link: LinkId,
        salt: [u8; 20],
    ) -> Result<(), OutOfMemory>
        ensures carries { OnOk result (Carries service.now (entry.Accepted port link salt) self.old self.new) }
        ensures moves { OnOk result (Moves self.old self.new) }
    {
        router_laws::entering::comes_router();
        router_laws::entering::turned_away_router();
        self.came = self.came.then(port);
        let client = ClientNo(self.came.clients);
        let served = self.policy.serves(service, port);
        self.policy.comes(client, port, served, self.came.clock)?;
        if served {
            self.receives(service, port, link, salt, client)
        } else {
            self.turns_away(service, port, link, salt, client)
        }
    }

    // It is served.
    fn receives(
        &mut self,
        service: &Service,
        port: Port,
        link: LinkId,
        salt: [u8; 20],
        client: ClientNo,
    ) -> Result<(), OutOfMemory>
        ensures received { OnOk result (ComesSo Served service.now.setup port link salt client (tables self.old) (tables self.new)) }
        ensures keeps { OnOk result (Keeps self.old self.new) }
    {
        let seat = Seat::new(self.alloc, link, client, salt, port, &service.setup)?;
        self.marked.come(client, link, seat, no_note())
    }

    // It is turned away, and ends.
    fn turns_away(
        &mut self,
        service: &Service,
        port: Port,
        link: LinkId,
        salt: [u8; 20],
        client: ClientNo,
    ) -> Result<(), OutOfMemory>
        ensures received { OnOk result (ComesSo TurnedAway service.now.setup port link salt client (tables self.old) (tables self.new)) }
        ensures keeps { OnOk result (Keeps self.old self.new) }
    {
        let seat = Seat::turned_away(self.alloc, link, client, salt, port)?;
        self.marked.come(client, link, seat, no_note())?;
        self.ends(client)?;
        self.policy.parts(client);
        Ok(())
    }

    /// Bytes came of a client that is read.
    pub(crate) fn client_says(
        &mut self,
        service: &Service,
        link: LinkId,
        bytes: &[u8],
    ) -> Result<(), OutOfMemory>
        requires { HasBegun self.old.texts }
        ensures carries { OnOk result ((tables self.old).links link ≡ None → reads_on self.old.marked link ≡ true
            → IsSettled self.old → Carries service.now (entry.Got link bytes.now) self.old self.new) }
        ensures moves { OnOk result (Moves self.old self.new) }
    {
        router_laws::entering::speaks_router();
        match self.marked.client_on(link) {
            Some(client) => self.speaks(service, link, client, bytes),
            None => Ok(()),
        }
    }

    // It goes on; so does each that is read.
    fn speaks(
        &mut self,
        service: &Service,
        link: LinkId,
        client: ClientNo,
        bytes: &[u8],
    ) -> Result<(), OutOfMemory>
        ensures spoken { OnOk result ((row : Client) → IsLinkOf link client row (tables self.old)
            → is_ended row.desk.seat.phase ≡ false → HasSpoken service.now (made_by service.now self.old self.new) link bytes.now client (tables self.old) (tables self.new)) }
        ensures keeps { OnOk result (KeepsBut self.old self.new) }
    {
        if self.is_there(client) {
            self.marked.client_says(client, bytes)?;
            self.follow(service, client, false)
        } else {
            Ok(())
        }
    }
}
