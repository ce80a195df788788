// Sessions of clients' own, and what they answered.
ghost use Rattle.std.specs.Prelude.{◌≡◌, ℕ, true, false, Some, IfOk, OnOk, [], option_copied};
ghost use Rattle.server_rule.specs.Classes.{is_prepare as prepares};
ghost use Rattle.server_rule.specs.Servers.{Tests};
ghost use Rattle.private_model.specs.Commands.{Command, Reset, cmd_of, fresh_of, runs};
ghost use Rattle.private_model.specs.Story.{Due as TheDue, End, is_message, is_name, put};
ghost use Rattle.private_model.specs.View.{Setup};
ghost use Rattle.private_model.specs.Worlds.{closed, first_private, in_session, in_table, private_prep, private_statement};
ghost use Rattle.oracle.specs.Entries.{prepared_at};
ghost use Rattle.oracle.specs.Turns.{IsOf, Leads};
ghost use Rattle.oracle.specs.World.{AreTaken, IsWorld, answer_at, own_at, prepared_of, session_of};

use crate::{Own, Prepared};
use mx_base::{Bytes, OutOfMemory};
use server_rule::{Capabilities, Cmd, Reply, Session, TameServer};
use session_state::{MessageName, Place, SessionName};
use session_vars::Settings;
use std::alloc::Global;
use std::collections::HashMap;

/// Whose a session is: its name, and the account of its client.
#[derive(Clone, Copy)]
pub struct Who<'a> {
    pub name: SessionName,
    pub user: &'a [u8],
    pub capabilities: Capabilities,
}

/// A session of its own for each client, hostgroup and life, and what was answered there.
#[derive(Drop)]
pub struct World {
    owns: HashMap<SessionName, Own>,
    answers: HashMap<MessageName, Reply>,
}

/// A statement of a client as it became due: its place among the messages, the schema and settings that its session takes, where
/// that was unpinned, the key of a preparation or an execute, and what is asked.
#[derive(Drop)]
pub struct Statement<'a> {
    pub ordinal: u64,
    pub place: Option<&'a Place>,
    pub key: u64,
    pub command: Cmd,
}

fn is_prepare(command: &Cmd) -> bool
    ensures { result ≡ prepares command.now }
{
    matches!(command, Cmd::Prepare { .. })
}

// A session in which nothing ran.
fn fresh(alloc: Global, who: &Who<'_>) -> Result<Own, OutOfMemory>
    ensures session { IfOk result (λ own. own.session ≡ fresh_of (record { user = who.now.user.now; capabilities = who.now.capabilities }) []) }
    ensures prepared { IfOk result (λ own. (key : ℕ) → prepared_at own.prepared key ≡ None) }
{
    let session = Session {
        user: Bytes::from_slice(alloc, who.user)?,
        capabilities: who.capabilities,
        schema: Bytes::new(alloc),
        settings: Settings::defaults(alloc)?,
        tx: Bytes::new(alloc),
        locks: Bytes::new(alloc),
        deep: Bytes::new(alloc),
        last_id: 0,
        diag: Bytes::new(alloc),
    };
    let prepared = Prepared::new(alloc);
    Ok(Own { session, prepared })
}

impl World {
    /// Sessions in which nothing ran. Takes no memory.
    pub fn new(alloc: Global) -> Self
        ensures first { (setup : Setup) → IsWorld setup.accounts result (first_private setup) }
        ensures sessions { (tests : Tests) → AreTaken tests result }
    {
        World {
            owns: HashMap::new(alloc),
            answers: HashMap::new(alloc),
        }
    }

    /// What a message was answered, None where it wasn't. Takes no memory.
    pub fn answered(&self, name: MessageName) -> Option<&Reply>
        ensures { option_copied result ≡ answer_at self.now name }
    {
        self.answers.get(&name)
    }

    // Takes out the session of a name, where something ran in it.
    fn remove(&mut self, name: SessionName) -> Option<Own>
        ensures own { result ≡ own_at self.old name }
        ensures others { (n : SessionName) → is_name n name ≡ false → own_at self.new n ≡ own_at self.old n }
        ensures answers { self.new.answers ≡ self.old.answers }
    {
        self.owns.remove(&name)
    }

    // Takes out the session of a name.
    fn take(&mut self, alloc: Global, who: &Who<'_>) -> Result<Own, OutOfMemory>
        ensures session { IfOk result (λ own. own.session ≡ session_of (own_at self.old who.now.name) (record { user = who.now.user.now; capabilities = who.now.capabilities })) }
        ensures prepared { IfOk result (λ own. (key : ℕ) → prepared_at own.prepared key ≡ prepared_of (own_at self.old who.now.name) key) }
        ensures others { (n : SessionName) → is_name n who.now.name ≡ false → own_at self.new n ≡ own_at self.old n }
        ensures answers { self.new.answers ≡ self.old.answers }
    {
        match self.remove(who.name) {
            Some(own) => Ok(own),
            None => fresh(alloc, who),
        }
    }

    // Puts a session under a name.
    fn put(&mut self, name: SessionName, own: Own) -> Result<(), OutOfMemory>
        ensures own { OnOk result ((n : SessionName) → own_at self.new n ≡ put is_name (own_at self.old) name (Some own) n) }
        ensures answers { self.new.answers ≡ self.old.answers }
    {
        self.owns.insert(name, own)?;
        Ok(())
    }

    // Puts the answer to a message.
    fn answer(&mut self, name: MessageName, answer: Reply) -> Result<(), OutOfMemory>
        ensures answer { OnOk result ((message : MessageName) → answer_at self.new message ≡ put is_message (answer_at self.old) name (Some answer) message) }
        ensures owns { self.new.owns ≡ self.old.owns }
    {
        self.answers.insert(name, answer)?;
        Ok(())
    }

    /// Closes a session with its link; its insert id stays. After OutOfMemory nothing is promised.
    pub fn close<R: TameServer>(
        &mut self,
        alloc: Global,
        server: &mut R,
        who: &Who<'_>,
    ) -> Result<(), OutOfMemory>
        requires data { R.tests.is_data (R.stored server.old) ≡ true }
        requires sessions { AreTaken R.tests self.old }
        ensures data { OnOk result (R.tests.is_data (R.stored server.new) ≡ true) }
        ensures sessions { OnOk result (AreTaken R.tests self.new) }
        ensures turn { OnOk result (Leads who.now self.old (R.stored server.old) self.new (R.stored server.new) (λ private server. closed (runs R.step) private server who.now.name)) }
    {
        R::tame();
        let mut own = self.take(alloc, who)?;
        own.close(server)?;
        self.put(who.name, own)
    }

    /// Resets a session that was left. After OutOfMemory nothing is promised.
    pub fn end<R: TameServer>(
        &mut self,
        alloc: Global,
        server: &mut R,
        who: &Who<'_>,
    ) -> Result<(), OutOfMemory>
        requires data { R.tests.is_data (R.stored server.old) ≡ true }
        requires sessions { AreTaken R.tests self.old }
        ensures data { OnOk result (R.tests.is_data (R.stored server.new) ≡ true) }
        ensures sessions { OnOk result (AreTaken R.tests self.new) }
        ensures turn { OnOk result (Leads who.now self.old (R.stored server.old) self.new (R.stored server.new) (λ private server. in_table (runs R.step) private server who.now.name (private.sessions who.now.name) Reset (End who.now.name))) }
    {
        R::tame();
        let mut own = self.take(alloc, who)?;
        own.end(alloc, server)?;
        self.put(who.name, own)
    }

    /// Runs a step of the router in a session that is pinned. After OutOfMemory nothing is promised.
    pub fn step<R: TameServer>(
        &mut self,
        alloc: Global,
        server: &mut R,
        who: &Who<'_>,
        command: &Cmd,
    ) -> Result<(), OutOfMemory>
        requires data { R.tests.is_data (R.stored server.old) ≡ true }
        requires sessions { AreTaken R.tests self.old }
        ensures data { OnOk result (R.tests.is_data (R.stored server.new) ≡ true) }
        ensures sessions { OnOk result (AreTaken R.tests self.new) }
        ensures turn { OnOk result ((c : Command) → command.now ≡ cmd_of c → Leads who.now self.old (R.stored server.old) self.new (R.stored server.new) (λ private server. in_session (runs R.step) private server who.now.name (private.sessions who.now.name) c)) }
    {
        R::tame();
        let mut own = self.take(alloc, who)?;
        let _reply = own.step(server, command)?;
        self.put(who.name, own)
    }

    /// Prepares a statement's text in a session that is pinned, under a key. After OutOfMemory nothing is promised.
    pub fn prepare<R: TameServer>(
        &mut self,
        alloc: Global,
        server: &mut R,
        who: &Who<'_>,
        key: u64,
        text: Bytes,
    ) -> Result<(), OutOfMemory>
        requires data { R.tests.is_data (R.stored server.old) ≡ true }
        requires sessions { AreTaken R.tests self.old }
        ensures data { OnOk result (R.tests.is_data (R.stored server.new) ≡ true) }
        ensures sessions { OnOk result (AreTaken R.tests self.new) }
        ensures turn { OnOk result (Leads who.now self.old (R.stored server.old) self.new (R.stored server.new) (λ private server. private_prep (runs R.step) private true server who.now.name key text)) }
    {
        R::tame();
        let mut own = self.take(alloc, who)?;
        let _reply = own.statement(alloc, server, None, key, Cmd::Prepare { text })?;
        self.put(who.name, own)
    }

    /// Runs a statement of the client, and keeps its reply as the answer to its message. After OutOfMemory nothing is promised.
    pub fn statement<R: TameServer>(
        &mut self,
        alloc: Global,
        server: &mut R,
        who: &Who<'_>,
        asked: Statement<'_>,
    ) -> Result<(), OutOfMemory>
        requires data { R.tests.is_data (R.stored server.old) ≡ true }
        requires sessions { AreTaken R.tests self.old }
        ensures data { OnOk result (R.tests.is_data (R.stored server.new) ≡ true) }
        ensures sessions { OnOk result (AreTaken R.tests self.new) }
        ensures turn { OnOk result ((due : TheDue) → IsOf due asked.entry → Leads who.now self.old (R.stored server.old) self.new (R.stored server.new) (λ private server. private_statement (runs R.step) private server who.now.name due)) }
    {
        R::tame();
        let mut own = self.take(alloc, who)?;
        let to_prepare = is_prepare(&asked.command);
        let payloads = own.statement(alloc, server, asked.place, asked.key, asked.command)?;
        let message = MessageName {
            client: who.name.client,
            ordinal: asked.ordinal,
        };
        self.answer(
            message,
            Reply {
                to_prepare,
                payloads,
            },
        )?;
        self.put(who.name, own)?;
        Ok(())
    }
}
