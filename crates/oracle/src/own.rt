// A session of a client's own.
ghost use Rattle.std.specs.Prelude.{◌≡◌, ℕ, IfOk, OnOk, option_copied};
ghost use Rattle.std.specs.Option.{option_map};
ghost use Rattle.server_rule.specs.Replies.{first_payload, is_err_payload};
ghost use Rattle.server_rule.specs.Servers.{Accepts, Runs};
ghost use Rattle.oracle.specs.Entries.{key_of, prepared_at};
ghost use Rattle.oracle.specs.Made.{AreRun, decoded, placed_by, prepared_by};
ghost use Rattle.oracle.specs.Runs.{RunsClose, RunsEnd, RunsStatement, RunsStep};

use crate::Prepared;
use crate::prepared::Entry;
use mx_base::{Bytes, OutOfMemory};
use server_rule::{Cmd, ReplyList, Session, TameServer};
use session_state::Place;
use std::alloc::Global;

/// A session that one client alone uses in a hostgroup, and what is prepared in it, by keys.
#[derive(Drop)]
pub struct Own {
    pub session: Session,
    pub prepared: Prepared,
}

fn copy(alloc: Global, bytes: &Bytes) -> Result<Bytes, OutOfMemory>
    ensures { IfOk result (λ copy. copy ≡ bytes.now) }
{
    Bytes::from_slice(alloc, bytes.as_slice())
}

fn copy_of(alloc: Global, place: &Place) -> Result<Place, OutOfMemory>
    ensures { IfOk result (λ copy. copy ≡ place.now) }
{
    Ok(Place {
        schema: copy(alloc, &place.schema)?,
        settings: place.settings.copy()?,
    })
}

// The session takes this schema and these settings.
fn take(alloc: Global, session: &mut Session, place: Option<&Place>) -> Result<(), OutOfMemory>
    ensures { OnOk result (session.new ≡ placed_by (option_copied place.entry) session.old) }
{
    let Some(place) = place else {
        return Ok(());
    };
    let Place { schema, settings } = copy_of(alloc, place)?;
    session.schema = schema;
    session.settings = settings;
    Ok(())
}

// A Run is of what was prepared, where that is there.
fn decoded(alloc: Global, entry: Option<&Entry>, command: Cmd) -> Result<Cmd, OutOfMemory>
    ensures { IfOk result (λ out. out ≡ decoded (option_map key_of (option_copied entry.entry)) command) }
{
    match (entry, command) {
        (
            Some(entry),
            Cmd::Run {
                types,
                nulls,
                values,
                long,
                ..
            },
        ) => Ok(Cmd::Run {
            text: copy(alloc, &entry.text)?,
            schema: copy(alloc, &entry.place.schema)?,
            settings: entry.place.settings.copy()?,
            types,
            nulls,
            values,
            long,
        }),
        (_, command) => Ok(command),
    }
}

// Whether a preparation is refused.
fn is_refused(payloads: &[Bytes]) -> bool
    ensures { result ≡ is_err_payload (first_payload payloads.now) }
{
    let [first, ..] = payloads else {
        return false;
    };
    matches!(first.as_slice().first(), Some(0xFF))
}

impl Own {
    // What a command prepared is kept, unless it was refused.
    fn keep(
        &mut self,
        alloc: Global,
        key: u64,
        command: &Cmd,
        payloads: &[Bytes],
    ) -> Result<(), OutOfMemory>
        ensures session { OnOk result (self.new.session ≡ self.old.session) }
        ensures prepared { OnOk result ((k : ℕ) → prepared_at self.new.prepared k ≡ prepared_by command.now (is_err_payload (first_payload payloads.now)) key self.old.session (prepared_at self.old.prepared) k) }
    {
        let Cmd::Prepare { text } = command else {
            return Ok(());
        };
        if is_refused(payloads) {
            return Ok(());
        }
        let place = Place {
            schema: copy(alloc, &self.session.schema)?,
            settings: self.session.settings.copy()?,
        };
        let text = copy(alloc, text)?;
        self.prepared.put(key, Entry { text, place })
    }

    // Runs a command as it stands, and keeps what it prepared.
    fn go<R: TameServer>(
        &mut self,
        alloc: Global,
        server: &mut R,
        key: u64,
        command: &Cmd,
    ) -> Result<ReplyList, OutOfMemory>
        requires { Accepts R.tests (R.stored server.old) self.old.session }
        ensures accepted { OnOk result (Accepts R.tests (R.stored server.new) self.new.session) }
        ensures run { IfOk result (λ payloads. Runs R.step (R.stored server.old) self.old.session command.now (R.stored server.new) self.new.session payloads) }
        ensures prepared { IfOk result (λ payloads. (k : ℕ) → prepared_at self.new.prepared k ≡ prepared_by command.now (is_err_payload (first_payload payloads)) key self.new.session (prepared_at self.old.prepared) k) }
    {
        R::tame();
        let reply = server.run(&mut self.session, command)?;
        self.keep(alloc, key, command, reply.as_slice())?;
        Ok(reply)
    }

    // Runs a command, behind a change of the session's schema and settings.
    fn run<R: TameServer>(
        &mut self,
        alloc: Global,
        server: &mut R,
        place: Option<&Place>,
        key: u64,
        command: Cmd,
    ) -> Result<ReplyList, OutOfMemory>
        requires { Accepts R.tests (R.stored server.old) self.old.session }
        ensures accepted { OnOk result (Accepts R.tests (R.stored server.new) self.new.session) }
        ensures run { IfOk result (λ payloads. AreRun R.step (R.stored server.old) self.old (option_copied place.entry) key command (R.stored server.new) self.new payloads) }
    {
        take(alloc, &mut self.session, place)?;
        let command = decoded(alloc, self.prepared.at(key), command)?;
        self.go(alloc, server, key, &command)
    }

    /// Runs a statement of the client, and gives its reply: behind a change of schema and settings, where its session was unpinned
    /// as it became due. A preparation is kept under the key, and an execute is of what is prepared there. The preparation of a
    /// statement's text is run so too, in a session that is pinned. After OutOfMemory nothing is promised of session and server.
    #[tactic(auto, using(crate::proofs::Standing::runs_statement))]
    pub fn statement<R: TameServer>(
        &mut self,
        alloc: Global,
        server: &mut R,
        place: Option<&Place>,
        key: u64,
        command: Cmd,
    ) -> Result<ReplyList, OutOfMemory>
        requires { Accepts R.tests (R.stored server.old) self.old.session }
        ensures accepted { OnOk result (Accepts R.tests (R.stored server.new) self.new.session) }
        ensures statement { IfOk result (λ payloads. RunsStatement R.step (R.stored server.old) self.old (option_copied place.entry) key command (R.stored server.new) self.new payloads) }
    {
        self.run(alloc, server, place, key, command)
    }

    /// Runs a step of the router in a session that is pinned, and gives its reply. After OutOfMemory nothing is promised.
    pub fn step<R: TameServer>(
        &mut self,
        server: &mut R,
        command: &Cmd,
    ) -> Result<ReplyList, OutOfMemory>
        requires { Accepts R.tests (R.stored server.old) self.old.session }
        ensures accepted { OnOk result (Accepts R.tests (R.stored server.new) self.new.session) }
        ensures step { OnOk result (RunsStep R.step (R.stored server.old) self.old command.now (R.stored server.new) self.new) }
    {
        R::tame();
        server.run(&mut self.session, command)
    }

    /// Resets a session that was left. After OutOfMemory nothing is promised.
    pub fn end<R: TameServer>(&mut self, alloc: Global, server: &mut R) -> Result<(), OutOfMemory>
        requires { Accepts R.tests (R.stored server.old) self.old.session }
        ensures accepted { OnOk result (Accepts R.tests (R.stored server.new) self.new.session) }
        ensures end { OnOk result (RunsEnd R.step (R.stored server.old) self.old (R.stored server.new) self.new) }
    {
        R::tame();
        let _reply = server.run(&mut self.session, &Cmd::Reset)?;
        self.prepared = Prepared::new(alloc);
        Ok(())
    }

    /// Closes the session with its link; its insert id stays. After OutOfMemory nothing is promised.
    pub fn close<R: TameServer>(&mut self, server: &mut R) -> Result<(), OutOfMemory>
        requires { Accepts R.tests (R.stored server.old) self.old.session }
        ensures accepted { OnOk result (Accepts R.tests (R.stored server.new) self.new.session) }
        ensures close { OnOk result (RunsClose R.step (R.stored server.old) self.old (R.stored server.new) self.new) }
    {
        let id = self.session.last_id;
        R::tame();
        let _reply = server.run(&mut self.session, &Cmd::Close)?;
        self.session.last_id = id;
        Ok(())
    }
}
