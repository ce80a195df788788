// A message is taken up.
ghost use Rattle.std.specs.Prelude.{◌≡◌, false, IfOk, OnOk};
ghost use Rattle.std.specs.Option.{option_copied};
ghost use Rattle.client_seat.specs.Numbers.{AreNoted};
ghost use Rattle.client_seat.specs.Requests.{IsAsked, asked_in};

use crate::bytes::first_byte;
use crate::noting::{note, run};
use crate::request::{Request, text_request};
use crate::seat::Seat;
use command_parse::{COM_RESET_CONNECTION, COM_STMT_EXECUTE};
use mx_base::{Hostgroup, OutOfMemory};
use session_vars::Settings;
use std::alloc::Global;
use stmt_map::ClientStatements;

impl Seat {
    ghost use Rattle.std.specs.Prelude.{◌≡◌, true, false, slice_index_or, nat_eq, if◌then◌else◌, IsSome, IfSome, IfOk, OnOk};
    ghost use Rattle.std.specs.Option.{option_copied};
    ghost use Rattle.log_story.specs.Plan.{com_execute};
    ghost use Rattle.client_side.specs.declared.stage.Stage.TheVariants.{Commands};
    ghost use Rattle.client_seat.specs.Numbers.{AreNoted};
    ghost use Rattle.client_seat.specs.Requests.{IsAsked, asked_in};
    ghost use Rattle.client_seat.specs.Takings.{begun_anew, passed, taken, taken_to};

    /// The payload of the message that came up.
    pub fn payload(&self) -> &[u8]
        requires { IsSome self.now.client.framer.found }
        ensures { IfSome self.now.client.framer.found (λ message. result.now ≡ message.payload) }
    {
        self.client.payload()
    }

    // It begins anew: its settings are those of its login.
    fn begin_anew(&mut self, alloc: Global) -> Result<(), OutOfMemory>
        ensures { OnOk result (self.new ≡ begun_anew self.old) }
    {
        self.place.settings = Settings::for_collation(alloc, self.collation)?;
        Ok(())
    }

    // The message that was found is behind.
    fn pass(&mut self, flag: u16)
        requires found { IsSome self.old.client.framer.found }
        requires commands { self.old.client.stage ≡ Commands }
        ensures { IfSome self.old.client.framer.found
            (λ message. self.new ≡ passed flag message self.old) }
    {
        self.client.done();
        self.answered = false;
        self.flag = flag;
    }

    /// The message that came up is taken up, and the router answers it itself. Rules are tried first by this flag from now on.
    pub fn take(&mut self, alloc: Global, flag: u16) -> Result<(), OutOfMemory>
        requires found { IsSome self.old.client.framer.found }
        requires commands { self.old.client.stage ≡ Commands }
        ensures is { OnOk result (IfSome self.old.client.framer.found (λ message. self.new
            ≡ taken flag message self.new.statements self.old)) }
        ensures noted { OnOk result (IfSome self.old.client.framer.found
            (λ message. AreNoted true message.payload self.old.statements self.new.statements)) }
    {
        note(alloc, &mut self.statements, self.client.payload())?;
        if first_byte(self.client.payload()) == COM_RESET_CONNECTION {
            self.begin_anew(alloc)?;
        }
        self.pass(flag);
        Ok(())
    }

    /// The message that came up is taken up, and goes to a server in this hostgroup, with this text in place of its own, where
    /// there is one. It answers what the message asks for; None where it asks a server for nothing.
    pub fn take_to(
        &mut self,
        alloc: Global,
        hostgroup: Hostgroup,
        flag: u16,
        text: Option<&[u8]>,
    ) -> Result<Option<Request>, OutOfMemory>
        requires found { IsSome self.old.client.framer.found }
        requires commands { self.old.client.stage ≡ Commands }
        ensures asked { IfOk result (λ request. IfSome self.old.client.framer.found (λ message. IsAsked
            (asked_in self.old.statements message.payload (option_copied text.entry)) request)) }
        ensures is { OnOk result (IfSome self.old.client.framer.found (λ message. self.new
            ≡ taken_to hostgroup flag message self.new.statements self.old)) }
        ensures noted { OnOk result (IfSome self.old.client.framer.found
            (λ message. AreNoted false message.payload self.old.statements self.new.statements)) }
    {
        let request = request(alloc, &mut self.statements, self.client.payload(), text)?;
        self.pass(flag);
        self.last = Some(hostgroup);
        Ok(request)
    }
}

// What a message asks for that goes to a server.
fn request(
    alloc: Global,
    statements: &mut ClientStatements,
    payload: &[u8],
    text: Option<&[u8]>,
) -> Result<Option<Request>, OutOfMemory>
    ensures asked { IfOk result (λ request. IsAsked (asked_in statements.old payload.now
        (option_copied text.entry)) request) }
    ensures noted { OnOk result (AreNoted false payload.now statements.old statements.new) }
{
    if first_byte(payload) == COM_STMT_EXECUTE {
        return run(alloc, statements, payload);
    }
    note(alloc, statements, payload)?;
    text_request(alloc, payload, text)
}
