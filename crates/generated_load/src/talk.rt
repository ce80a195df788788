// What the clients of a load say.
ghost use Rattle.std.specs.Prelude.{◌≡◌, ◌<◌, [], ◌∷◌, ◌++◌, length, replicate, IfOk, OnOk};
ghost use Rattle.std.specs.List.{All};
ghost use Rattle.handshake.specs.Spelling.{IsText};
ghost use Rattle.scripted_wire.specs.declared.script.Script.{Script as TheScript};
ghost use Rattle.generated_load.specs.Talks.{AreScripts, drawn_again, drawn_for, first_load, load_after, load_of, no_talk, said, said_at, says, scripted, written_out};

use crate::LoadAsk;
use crate::draw::{below, next};
use crate::kind::{Kind, command_of, is_begun_behind, kind_of};
use mx_base::{Bytes, OutOfMemory};
use scripted_wire::Script;
use std::alloc::Global;
use std::marker::Model;

/// How many rows a statement may name.
const ROWS: u64 = 100;

/// What a client says so far, and whether it has begun a transaction.
#[derive(Drop)]
struct Talk {
    commands: Vec<Bytes>,
    begun: bool,
}

impl Model for Talk {
    ghost use Rattle.generated_load.specs.Talks.{Talking};

    ghost Value = { Talking };

    ghost view = { λ t. record { commands = t.commands.items; begun = t.begun } };
}

impl Talk {
    // It has said nothing.
    fn new(alloc: Global) -> Self
        ensures { result ≡ no_talk }
    {
        Talk {
            commands: Vec::new(alloc),
            begun: false,
        }
    }

    // It says the statement of this place, of a kind, with a row.
    fn say(&mut self, alloc: Global, kind: Kind, statement: u64, id: u64) -> Result<(), OutOfMemory>
        ensures { OnOk result (self.new ≡ said kind statement id self.old) }
    {
        let command = command_of(alloc, kind, statement, id, self.begun)?;
        self.commands.push(command)?;
        self.begun = is_begun_behind(kind, self.begun);
        Ok(())
    }

    // Its script, with a COM_QUIT behind all.
    fn script(self, alloc: Global) -> Result<Script, OutOfMemory>
        ensures said { IfOk result (λ script. written_out script ≡ scripted self) }
        ensures user { IfOk result (λ script. IsText script.user) }
    {
        let Talk {
            mut commands,
            begun: _,
        } = self;
        commands.push(Bytes::from_slice(alloc, &[0x01])?)?;
        Ok(Script {
            user: Bytes::from_slice(alloc, b"u")?,
            password: Bytes::new(alloc),
            commands,
        })
    }
}

/// What the clients say so far, and the number that was drawn last.
#[derive(Drop)]
struct Load {
    drawn: u64,
    talks: Vec<Talk>,
}

impl Model for Load {
    ghost use Rattle.generated_load.specs.Talks.{Loading};

    ghost Value = { Loading };

    ghost view = { λ l. record { drawn = l.drawn; talks = l.talks.items } };
}

// The client of this place says a statement.
fn say_at(
    alloc: Global,
    talks: &mut Vec<Talk>,
    client: u64,
    kind: Kind,
    statement: u64,
    id: u64,
) -> Result<(), OutOfMemory>
    requires { client < length talks.old.items }
    ensures says { OnOk result (talks.new.items ≡ said_at client kind statement id talks.old.items) }
    ensures size { OnOk result (length talks.new.items ≡ length talks.old.items) }
{
    talks[client as usize].say(alloc, kind, statement, id)
}

// So many clients that have said nothing.
fn silent(alloc: Global, clients: u64) -> Result<Vec<Talk>, OutOfMemory>
    ensures { IfOk result (λ talks. talks.items ≡ replicate clients no_talk) }
{
    let mut talks = Vec::new(alloc);
    for _ in 0..clients {
        talks.push(Talk::new(alloc))?;
    }
    Ok(talks)
}

impl Load {
    // The number behind the one that was drawn last, where it is wanted.
    fn draw_for(&mut self, kind: Kind) -> u64
        ensures number { result ≡ self.new.drawn }
        ensures drawn { self.new ≡ drawn_for kind self.old }
    {
        if kind.takes_id() {
            self.drawn = next(self.drawn);
        }
        self.drawn
    }

    // The next number.
    fn draw(&mut self) -> u64
        ensures number { result ≡ self.new.drawn }
        ensures drawn { self.new ≡ drawn_again self.old }
    {
        self.drawn = next(self.drawn);
        self.drawn
    }

    // A client says the statement of this place.
    fn say(&mut self, alloc: Global, statement: u64) -> Result<(), OutOfMemory>
        requires { 0 < length self.old.talks }
        ensures says { OnOk result (self.new ≡ says statement self.old) }
        ensures size { OnOk result (length self.new.talks ≡ length self.old.talks) }
    {
        let drawn = self.draw();
        let client = below(drawn, self.talks.len() as u64);
        let kind = kind_of(below(self.draw(), 8));
        let id = below(self.draw_for(kind), ROWS);
        say_at(alloc, &mut self.talks, client, kind, statement, id)
    }
}

// What the clients say in all.
#[tactic(auto, using(crate::proofs::Saying::one_more))]
fn loaded(alloc: Global, ask: &LoadAsk) -> Result<Load, OutOfMemory>
    requires { 0 < ask.now.clients }
    ensures { IfOk result (λ load. load ≡ load_of ask.now) }
{
    let mut load = Load {
        drawn: ask.start,
        talks: silent(alloc, ask.clients)?,
    };
    for statement in 0..ask.statements {
        load.say(alloc, statement)?;
    }
    Ok(load)
}

/// The scripts of the clients, all of the user u without a password: their statements, and COM_QUIT.
pub fn load_scripts(alloc: Global, ask: &LoadAsk) -> Result<Vec<Script>, OutOfMemory>
    requires { 0 < ask.now.clients }
    ensures says { IfOk result (λ scripts. AreScripts (load_of ask.now).talks scripts.items) }
    ensures users { IfOk result (λ scripts. All (λ (script : TheScript). IsText script.user) scripts.items) }
{
    let load = loaded(alloc, ask)?;
    let mut scripts = Vec::new(alloc);
    for talk in load.talks {
        scripts.push(talk.script(alloc)?)?;
    }
    Ok(scripts)
}
