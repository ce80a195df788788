// What becomes of a message.
ghost use Rattle.std.specs.Prelude.{◌≡◌, slice_index_or, IfOk, Option};
ghost use Rattle.std.specs.Option.{option_copied};
ghost use Rattle.query_rules.specs.Passing.{rules_of};
ghost use Rattle.server_rule.specs.Classes.{router_reads};
ghost use Rattle.command_parse.specs.Meaning.{meaning_of};
ghost use Rattle.message_judge.specs.Drafts.{IsOwnDraft, draft_of, value_of};
ghost use Rattle.message_judge.specs.Judging.{asks, by_meaning, faulty, judged, known_of, prepares, restarted};
ghost use Rattle.message_judge.specs.declared.caller.Caller.{Caller};
ghost use Rattle.message_judge.specs.declared.caller.Prepared.{Prepared};
ghost use Rattle.message_judge.specs.declared.draft.Draft.TheVariants as drafts;
ghost use Rattle.message_judge.specs.declared.told.Told.TheVariants as told;

use crate::caller::{Caller, Prepared, Standing};
use crate::draft::{Draft, Judged};
use crate::own::{AUTOCOMMIT, connection_id, own_ok, refuses};
use crate::sending::{is_connection_id, pass, plain, runs};
use crate::told::{OwnError, Told};
use command_parse::{Command, CommandFault, Known, has_no_reply, parse_whole};
use mx_base::{Bytes, OutOfMemory};
use pin_classifier::classify;
use query_rules::Rules;
use std::alloc::Global;

/// What becomes of a message of a client that is logged in (client/server protocol, "Command Phase"; ProxySQL documentation,
/// "mysql_query_rules"). `prepared` is the statement whose number the message names, where the client prepared it. The rules are passed
/// once. The only error is want of memory.
pub fn judge(
    alloc: Global,
    rules: &Rules,
    caller: &Caller,
    standing: Standing,
    prepared: Option<&Prepared>,
    payload: &[u8],
) -> Result<Judged, OutOfMemory>
    ensures is { IfOk result (λ found. value_of caller.now (option_copied prepared.entry) found
        ≡ judged router_reads (rules_of rules.now) caller.now standing (option_copied prepared.entry) payload.now) }
    ensures own { IfOk result (λ found. IsOwnDraft (rules_of rules.now) found.draft) }
{
    match parse_whole(payload, known_of(prepared)) {
        Ok(command) => by_command(alloc, rules, caller, standing, prepared, command),
        Err(fault) => Ok(still(caller, faulty(payload, fault))),
    }
}

// What the reader of commands has to know of the statement.
fn known_of(prepared: Option<&Prepared>) -> Option<Known>
    ensures { result ≡ known_of (option_copied prepared.entry) }
{
    match prepared {
        Some(prepared) => Some(Known {
            params: prepared.params,
            bound: prepared.bound,
        }),
        None => None,
    }
}

// The client's flag stays as it is.
fn still(caller: &Caller, draft: Draft) -> Judged
    ensures { result ≡ record { draft = draft; flag = caller.now.flag } }
{
    Judged {
        draft,
        flag: caller.flag,
    }
}

// What can't be read is answered by an error, but for commands that have no answer.
fn faulty(payload: &[u8], fault: CommandFault) -> Draft
    ensures { (caller : Caller) (prepared : Option Prepared) → draft_of caller prepared result ≡ faulty (slice_index_or payload.now 0 0) fault }
{
    if let CommandFault::UnknownStatement { id } = fault {
        return refuses(OwnError::UnknownStatement(id));
    }
    match payload {
        [byte, ..] if has_no_reply(*byte) => Draft::Answers(Told::Nothing),
        _ => refuses(OwnError::MalformedCommand),
    }
}

fn by_command(
    alloc: Global,
    rules: &Rules,
    caller: &Caller,
    standing: Standing,
    prepared: Option<&Prepared>,
    command: Command<'_>,
) -> Result<Judged, OutOfMemory>
    ensures { IfOk result (λ found. value_of caller.now (option_copied prepared.entry) found
        ≡ by_meaning router_reads (rules_of rules.now) caller.now standing (option_copied prepared.entry) (meaning_of command.entry)) }
{
    let draft = match command {
        Command::Query { text } => return asks(alloc, rules, caller, standing, text),
        Command::Prepare { text } => return prepares(alloc, rules, caller, standing, text),
        Command::ResetConnection => return Ok(restarts(alloc)),
        Command::Execute { .. } => runs(standing, prepared),
        Command::Quit => Draft::Ends,
        Command::InitDb { .. } | Command::FieldList { .. } => plain(caller, standing),
        Command::Ping | Command::ResetStmt { .. } => own_ok(caller, standing, Bytes::new(alloc)),
        Command::LongData { .. } | Command::Close { .. } => Draft::Answers(Told::Nothing),
        Command::Fetch { id } => refuses(OwnError::UnknownStatement(id)),
        Command::Refused(_) => refuses(OwnError::UnknownCommand),
    };
    Ok(still(caller, draft))
}

// The session begins anew.
fn restarts(alloc: Global) -> Judged
    ensures { (caller : Caller) (prepared : Option Prepared) → value_of caller prepared result ≡ restarted }
{
    let told = Told::Ok {
        status: AUTOCOMMIT,
        info: Bytes::new(alloc),
    };
    Judged {
        draft: Draft::Answers(told),
        flag: 0,
    }
}

// A query, by its text.
#[tactic(auto, unfolding(server_rule::specs::Classes::router_reads))]
fn asks(
    alloc: Global,
    rules: &Rules,
    caller: &Caller,
    standing: Standing,
    text: &[u8],
) -> Result<Judged, OutOfMemory>
    ensures { IfOk result (λ found. (prepared : Option Prepared) → value_of caller.now prepared found
        ≡ asks router_reads (rules_of rules.now) caller.now standing text.now) }
{
    let class = classify(alloc, text)?;
    if is_connection_id(&class.shape) {
        return Ok(still(caller, connection_id(caller, standing)));
    }
    pass(alloc, rules, caller, standing, text, Some(class), None)
}

// A text that is to be prepared.
fn prepares(
    alloc: Global,
    rules: &Rules,
    caller: &Caller,
    standing: Standing,
    text: &[u8],
) -> Result<Judged, OutOfMemory>
    ensures { IfOk result (λ found. (prepared : Option Prepared) → value_of caller.now prepared found
        ≡ prepares router_reads (rules_of rules.now) caller.now standing text.now standing.next_number) }
{
    if standing.next_number.is_none() {
        return Ok(still(caller, refuses(OwnError::TooManyStatements)));
    }
    pass(
        alloc,
        rules,
        caller,
        standing,
        text,
        None,
        standing.next_number,
    )
}
