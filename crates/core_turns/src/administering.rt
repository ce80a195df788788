// What administrators are answered.
ghost use Rattle.std.specs.Prelude.{◌≡◌, ℕ, IfOk, List, OnOk};
ghost use Rattle.admin_port.specs.Answers.{HasWholeTable, reply_of};
ghost use Rattle.admin_port.specs.Answers.Reply.{Loads};
ghost use Rattle.admin_port.specs.declared.statement.StagedTable.TheVariants as tables;
ghost use Rattle.core_tables.specs.Tables.{tables_of};
ghost use Rattle.core_tables.specs.Taking.{IsUpOr};
ghost use Rattle.marked_tables.specs.Goes.{GoesOn};
ghost use Rattle.mx_base.specs.declared.names.Port.TheVariants.{Admin};
ghost use Rattle.core_promises.specs.Administers.{IsStatementAnswer};
ghost use Rattle.core_promises.specs.Judges.{Rulebook};
ghost use Rattle.core_service.specs.Serves.{rules_in};
ghost use Rattle.query_rules.specs.declared.rule.Rule.{Rule};
ghost use Rattle.core_turns.specs.Administering.{CarriesOut, IsReplied, IsWritten, administered, port_for};
ghost use Rattle.core_turns.specs.Taken.{IsTakenUp, Keys, OnUp};

use crate::administrator::Administrator;
use crate::answering::tell;
use crate::turn::{Stop, Turn};
use admin_port::{
    AdminCommand, Answer, Refusal, Running, StagedTable, answer_text, read_command, write_answer,
};
use core_service::Service;
use core_tables::Tables;
use hostgroups::{Servers, ServersFault};
use marked_tables::MarkedTables;
use message_judge::{OwnError, Told, write_told};
use mx_base::{Bytes, ClientNo, OutOfMemory, Port};
use query_rules::{RuleFault, RuleRow, Rules};
use std::alloc::Global;

/// AUTOCOMMIT (client/server protocol, "Status Flags"): an administrator is in no transaction.
const STATUS: u16 = 2;

/// Whether the message that came up is an administrator's.
#[tactic(auto, unfolding(core_tables::specs::Tables::tables_of))]
pub(crate) fn is_administrators(tables: &Tables, client: ClientNo) -> bool
    requires { IsUpOr ((tables_of tables.now).clients client) }
    ensures { OnUp client (tables_of tables.now) (λ row message. row.desk.seat.port ≡ port_for result) }
{
    let Some(row) = tables.clients.get(&client.0) else {
        unreachable!()
    };
    match row.desk.seat.port {
        Port::Admin => true,
        Port::Traffic => false,
    }
}

// The staged servers are put in force.
fn load_servers(
    alloc: Global,
    admin: &mut Administrator,
    servers: &mut Servers,
) -> Result<Answer, OutOfMemory>
    ensures done { IfOk result (λ answer. (force : List Rule) → CarriesOut (Loads tables.Servers) (reply_of answer) force admin.old admin.new) }
    ensures whole { IfOk result HasWholeTable }
{
    let rows = admin.staged.servers().to_vec(alloc)?;
    match servers.reload(alloc, admin.staged.servers()) {
        Ok(()) => {
            admin.servers = Some(rows);
            Ok(Answer::Load(StagedTable::Servers))
        }
        Err(ServersFault::OutOfMemory) => Err(OutOfMemory),
        Err(_) => Ok(Answer::Refused(Refusal::Server)),
    }
}

fn copies(alloc: Global, rows: &[RuleRow]) -> Result<Vec<RuleRow>, OutOfMemory> {
    let mut copies = Vec::new(alloc);
    for row in rows {
        copies.push(row.copy(alloc)?)?;
    }
    Ok(copies)
}

// The staged rules come in force behind the event.
fn load_rules(alloc: Global, admin: &mut Administrator) -> Result<Answer, OutOfMemory>
    ensures done { IfOk result (λ answer. (force : List Rule) → CarriesOut (Loads tables.Rules) (reply_of answer) force admin.old admin.new) }
    ensures whole { IfOk result HasWholeTable }
{
    let rows = copies(alloc, admin.staged.rules())?;
    match Rules::build(alloc, admin.staged.rules()) {
        Ok(rules) => {
            admin.rules = Some(rows);
            admin.loaded = Some(rules);
            Ok(Answer::Load(StagedTable::Rules))
        }
        Err(RuleFault::OutOfMemory) => Err(OutOfMemory),
        Err(_) => Ok(Answer::Refused(Refusal::Rule)),
    }
}

// The staged rows of a table are put in force.
fn load(
    alloc: Global,
    table: StagedTable,
    admin: &mut Administrator,
    servers: &mut Servers,
) -> Result<Answer, OutOfMemory>
    ensures done { IfOk result (λ answer. (force : List Rule) → CarriesOut (Loads table) (reply_of answer) force admin.old admin.new) }
    ensures whole { IfOk result HasWholeTable }
{
    match table {
        StagedTable::Servers => load_servers(alloc, admin, servers),
        StagedTable::Rules => load_rules(alloc, admin),
    }
}

// What a statement says is done, but for what it staged: rows are put in force, and the router shuts down.
fn carry_out(
    alloc: Global,
    answer: Answer,
    admin: &mut Administrator,
    servers: &mut Servers,
) -> Result<Answer, OutOfMemory>
    requires { HasWholeTable answer }
    ensures done { IfOk result (λ done. (force : List Rule) → CarriesOut (reply_of answer) (reply_of done) force admin.old admin.new) }
    ensures whole { IfOk result HasWholeTable }
{
    match answer {
        Answer::Load(table) => load(alloc, table, admin, servers),
        Answer::Shutdown => {
            admin.shuts = true;
            Ok(Answer::Shutdown)
        }
        Answer::Done => Ok(Answer::Done),
        Answer::Rows(table) => Ok(Answer::Rows(table)),
        Answer::Refused(refusal) => Ok(Answer::Refused(refusal)),
    }
}

fn answer_for(
    alloc: Global,
    text: &[u8],
    admin: &mut Administrator,
    running: &Running<'_>,
    service: &Service,
    servers: &mut Servers,
) -> Result<Answer, OutOfMemory>
    ensures said { IfOk result (λ answer. IsStatementAnswer text.now (administered (rules_in service.now) admin.old)
        (administered (rules_in service.now) admin.new) (reply_of answer)) }
    ensures whole { IfOk result HasWholeTable }
{
    let answer = answer_text(alloc, text, &mut admin.staged, running)?;
    carry_out(alloc, answer, admin, servers)
}

fn write_statement(
    alloc: Global,
    out: &mut Vec<u8>,
    first: u8,
    text: &[u8],
    admin: &mut Administrator,
    running: &Running<'_>,
    service: &Service,
    servers: &mut Servers,
) -> Result<(), OutOfMemory>
    ensures { OnOk result (IsReplied text.now (administered (rules_in service.now) admin.old) (administered (rules_in service.now) admin.new)
        first out.old.items out.new.items) }
{
    let answer = answer_for(alloc, text, admin, running, service, servers)?;
    let _ = write_answer(out, first, &answer)?;
    Ok(())
}

// The answer to a message is appended; none is to a QUIT.
fn write_reply(
    alloc: Global,
    out: &mut Vec<u8>,
    first: u8,
    payload: &[u8],
    client: ClientNo,
    admin: &mut Administrator,
    running: &Running<'_>,
    service: &Service,
    servers: &mut Servers,
) -> Result<bool, OutOfMemory>
    ensures { IfOk result (λ answered. IsWritten answered payload.now (administered (rules_in service.now) admin.old)
        (administered (rules_in service.now) admin.new) first out.old.items out.new.items) }
{
    match read_command(payload) {
        AdminCommand::Quit => return Ok(false),
        AdminCommand::Query(text) => {
            write_statement(alloc, out, first, text, admin, running, service, servers)?;
        }
        AdminCommand::Ping => {
            let okay = Told::Ok {
                status: STATUS,
                info: Bytes::new(alloc),
            };
            write_told(alloc, out, first, client, &okay)?;
        }
        AdminCommand::Malformed => {
            let why = Told::Error(OwnError::MalformedCommand);
            write_told(alloc, out, first, client, &why)?;
        }
        AdminCommand::Unknown => {
            let why = Told::Error(OwnError::UnknownCommand);
            write_told(alloc, out, first, client, &why)?;
        }
    }
    Ok(true)
}

// The packets of the answer to the message that came up, if it has one.
#[tactic(auto, unfolding(core_tables::specs::Tables::tables_of))]
fn append_reply(
    alloc: Global,
    out: &mut Vec<u8>,
    tables: &Tables,
    client: ClientNo,
    admin: &mut Administrator,
    running: &Running<'_>,
    service: &Service,
    servers: &mut Servers,
) -> Result<bool, OutOfMemory>
    requires { IsUpOr ((tables_of tables.now).clients client) }
    ensures { IfOk result (λ answered. OnUp client (tables_of tables.now)
        (λ row message. IsWritten answered message.payload (administered (rules_in service.now) admin.old)
        (administered (rules_in service.now) admin.new) row.desk.seat.first out.old.items out.new.items)) }
{
    let Some(row) = tables.clients.get(&client.0) else {
        unreachable!()
    };
    write_reply(
        alloc,
        out,
        row.desk.seat.first,
        row.desk.seat.payload(),
        client,
        admin,
        running,
        service,
        servers,
    )
}

/// An administrator's message is taken up: it is answered, or says that it quits. What it changes of the staged rows, or puts in force, it
/// does at once.
pub(crate) fn administer(
    marked: &mut MarkedTables,
    admin: &mut Administrator,
    running: &Running<'_>,
    service: &Service,
    servers: &mut Servers,
    alloc: Global,
    client: ClientNo,
) -> Result<Turn, OutOfMemory>
    requires up { IsUpOr ((tables_of marked.old.tables).clients client) }
    requires port { OnUp client (tables_of marked.old.tables) (λ row message. row.desk.seat.port ≡ Admin) }
    ensures is { IfOk result (λ turn. (book : Rulebook) (since : ℕ) (keys : Keys) (ordinal : ℕ) → OnUp client (tables_of marked.old.tables)
        (λ row message. IsTakenUp turn ordinal (record {
          book = book;
          since = since;
          keys = keys;
          was = administered (rules_in service.now) admin.old;
          is = administered (rules_in service.now) admin.new;
        }) client row message (tables_of marked.old.tables) (tables_of marked.new.tables))) }
    ensures goes { OnOk result (GoesOn marked.old marked.new) }
{
    let mut packets = Vec::new(alloc);
    if append_reply(
        alloc,
        &mut packets,
        &marked.tables,
        client,
        admin,
        running,
        service,
        servers,
    )? {
        tell(marked, client, 0, packets.as_slice())?;
        Ok(Turn::Answered)
    } else {
        Ok(Turn::Stops(Stop::Quits { flag: 0 }))
    }
}
