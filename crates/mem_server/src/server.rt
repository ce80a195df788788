// The server.
ghost use Rattle.std.specs.Prelude.{◌≡◌, ◌∷◌, [], IfOk, OnErr, OnOk, Some, is_some, option_copied};
ghost use Rattle.std.specs.Option.{unwrap_or};
ghost use Rattle.mem_rule.specs.Answers.{ok_payload};
ghost use Rattle.mem_rule.specs.Commands.{RunsIn, by_effect, ends, on_text, ran, says, scene, types_of};
ghost use Rattle.mem_rule.specs.Statements.{said_in};
ghost use Rattle.mem_rule.specs.Steps.{does};
ghost use Rattle.mem_rule.specs.Tables.{no_tables};
ghost use Rattle.session_state.specs.Classes.{effect_in};

use crate::answer::ok_reply;
use crate::did::goes_on;
use crate::outcome::{Outcome, chooses, ends, fails, ran_by, tracks};
use crate::prepare::{fields, prepares};
use crate::said::{Bindings, said_in};
use crate::scene::Scene;
use crate::statement::does;
use crate::store::{Base, settle};
use mem_rule::{Answer, Did, Fault, Notes, Said};
use mx_base::{Bytes, OutOfMemory};
use pin_classifier::{Shape, classify};
use server_rule::{Cmd, ReplyList, Session};
use session_vars::SetShape;
use std::alloc::Global;
use std::marker::Model;

/// The server. A contract sees its tables.
#[derive(Drop)]
pub struct MemServer {
    base: Base,
    // What is done to the data, and how much of it is done already.
    notes: Notes,
    done: usize,
}

impl Model for MemServer {
    ghost use Rattle.std.specs.Prelude.{◌≤◌, drop, length};
    ghost use Rattle.mem_rule.specs.Tables.{Tables, after_all};

    ghost Value = { Tables };

    ghost view = { λ s. after_all s.base (drop s.done s.notes) };

    ghost invariant = { λ s. s.done ≤ length s.notes };
}

// The schema that a prepared statement brings, or that of the session.
fn schema_of<'a>(schema: Option<&'a Bytes>, s: &'a Session) -> &'a Bytes
    ensures { result.now ≡ unwrap_or (option_copied schema.entry) s.now.schema }
{
    match schema {
        None => &s.schema,
        Some(schema) => schema,
    }
}

fn did_in(
    alloc: Global,
    said: &Said,
    schema: Option<&Bytes>,
    base: &Base,
    s: &Session,
    did: &mut Did,
) -> Result<(), OutOfMemory>
    requires { did.old ≡ record { writes = []; tx = s.now.tx; locks = s.now.locks; deep = s.now.deep; last_id = s.now.last_id; answer = Answer.Done 0 0 } }
    ensures { OnOk result (did.new ≡ does said.now.form said.now (scene base.now s.now (unwrap_or (option_copied schema.entry) s.now.schema))) }
{
    let scene = Scene::new(alloc, base, s, schema_of(schema, s))?;
    does(alloc, said, &scene, did)
}

fn says(
    alloc: Global,
    said: &Said,
    is_binary: bool,
    schema: Option<&Bytes>,
    base: &Base,
    s: &mut Session,
) -> Result<Outcome, OutOfMemory>
    ensures ok { IfOk result (λ out. says (Some said.now) is_binary (unwrap_or (option_copied schema.entry) s.old.schema) base.now s.old ≡ record { writes = out.writes; session = s.new; reply = out.reply }) }
    ensures err { OnErr result (s.new ≡ s.old) }
{
    let mut did = goes_on(alloc, s)?;
    did_in(alloc, said, schema, base, s, &mut did)?;
    ran_by(alloc, is_binary, said.form, s, did)
}

// A text by its form.
fn on_form(
    alloc: Global,
    text: &[u8],
    b: Option<&Bindings>,
    schema: Option<&Bytes>,
    base: &Base,
    s: &mut Session,
) -> Result<Outcome, OutOfMemory>
    ensures ok { IfOk result (λ out. says (said_in text.now (option_copied b.entry)) (is_some (option_copied b.entry)) (unwrap_or (option_copied schema.entry) s.old.schema) base.now s.old ≡ record { writes = out.writes; session = s.new; reply = out.reply }) }
    ensures err { OnErr result (s.new ≡ s.old) }
{
    match said_in(alloc, text, b)? {
        None => fails(alloc, Fault::Syntax, s),
        Some(said) => says(alloc, &said, b.is_some(), schema, base, s),
    }
}

// A text of this shape.
fn by_shape(
    alloc: Global,
    shape: &Shape,
    text: &[u8],
    b: Option<&Bindings>,
    schema: Option<&Bytes>,
    base: &Base,
    s: &mut Session,
) -> Result<Outcome, OutOfMemory>
    ensures ok { IfOk result (λ out. by_effect (effect_in shape.now) text.now (option_copied b.entry) (is_some (option_copied b.entry)) (unwrap_or (option_copied schema.entry) s.old.schema) base.now s.old ≡ record { writes = out.writes; session = s.new; reply = out.reply }) }
    ensures err { OnErr result (s.new ≡ s.old) }
{
    match shape {
        Shape::Set(SetShape::Tracked(changes)) => tracks(alloc, changes.as_slice(), s),
        Shape::Use(chosen) => chooses(alloc, chosen.as_slice(), s),
        _ => on_form(alloc, text, b, schema, base, s),
    }
}

// A text.
fn on_text(
    alloc: Global,
    text: &[u8],
    b: Option<&Bindings>,
    schema: Option<&Bytes>,
    base: &Base,
    s: &mut Session,
) -> Result<Outcome, OutOfMemory>
    ensures ok { IfOk result (λ out. on_text text.now (option_copied b.entry) (is_some (option_copied b.entry)) (unwrap_or (option_copied schema.entry) s.old.schema) base.now s.old ≡ record { writes = out.writes; session = s.new; reply = out.reply }) }
    ensures err { OnErr result (s.new ≡ s.old) }
{
    let class = classify(alloc, text)?;
    by_shape(alloc, &class.shape, text, b, schema, base, s)
}

// The end of a session, with the reply to a reset or with none.
fn resets(alloc: Global, s: &mut Session) -> Result<Outcome, OutOfMemory>
    ensures ok { IfOk result (λ out. ends s.old (ok_payload 2 0 0 ∷ []) ≡ record { writes = out.writes; session = s.new; reply = out.reply }) }
    ensures err { OnErr result (s.new ≡ s.old) }
{
    let reply = ok_reply(alloc, 2, 0, 0)?;
    ends(alloc, s, reply)
}

fn bytes_of(types: &Option<Bytes>) -> &[u8]
    ensures { result.now ≡ types_of types.now }
{
    match types {
        None => b"",
        Some(types) => types.as_slice(),
    }
}

// What a command does.
#[tactic(auto, unfolding(mem_rule::specs::Commands::ran))]
fn run_command(
    alloc: Global,
    base: &Base,
    s: &mut Session,
    cmd: &Cmd,
) -> Result<Outcome, OutOfMemory>
    ensures ok { IfOk result (λ out. ran base.now s.old cmd.now ≡ record { writes = out.writes; session = s.new; reply = out.reply }) }
    ensures err { OnErr result (s.new ≡ s.old) }
{
    match cmd {
        Cmd::Query { text } => on_text(alloc, text.as_slice(), None, None, base, s),
        Cmd::InitDb { schema } => chooses(alloc, schema.as_slice(), s),
        Cmd::FieldList { .. } => fields(alloc, base, s),
        Cmd::Prepare { text } => prepares(alloc, text.as_slice(), s),
        Cmd::Run {
            text,
            schema,
            types,
            nulls,
            values,
            long,
            ..
        } => {
            let b = Bindings {
                types: bytes_of(types),
                nulls: nulls.as_slice(),
                values: values.as_slice(),
                long: long.as_slice(),
            };
            on_text(alloc, text.as_slice(), Some(&b), Some(schema), base, s)
        }
        Cmd::Reset => resets(alloc, s),
        Cmd::Close => ends(alloc, s, ReplyList::new(alloc)),
    }
}

impl MemServer {
    /// A server without tables. Takes no memory.
    pub fn new(alloc: Global) -> Self
        ensures { result ≡ no_tables }
    {
        MemServer {
            base: Base::new(alloc),
            notes: Notes::new(alloc),
            done: 0,
        }
    }

    // What its memory comes from.
    pub(crate) fn alloc(&self) -> Global {
        self.base.alloc()
    }

    /// Runs a command in a session. OutOfMemory changes neither.
    pub fn run(
        &mut self,
        alloc: Global,
        session: &mut Session,
        cmd: &Cmd,
    ) -> Result<ReplyList, OutOfMemory>
        ensures ok { IfOk result (λ payloads. RunsIn self.old session.old cmd.now self.new session.new payloads) }
        ensures err { OnErr result ((self.new ≡ self.old) × (session.new ≡ session.old)) }
    {
        settle(alloc, &mut self.base, &self.notes, &mut self.done)?;
        let out = run_command(alloc, &self.base, session, cmd)?;
        self.notes = out.writes;
        self.done = 0;
        Ok(out.reply)
    }
}
