// What becomes of a message is done.
ghost use Rattle.std.specs.Prelude.{◌≡◌, None, IfOk, OnOk};
ghost use Rattle.std.specs.Option.{option_copied};
ghost use Rattle.mx_base.specs.declared.names.Port.TheVariants.{Traffic};
ghost use Rattle.core_service.specs.Serves.{rules_in};
ghost use Rattle.core_tables.specs.Tables.{tables_of};
ghost use Rattle.core_tables.specs.Taking.{IsUpOr};
ghost use Rattle.marked_tables.specs.Goes.{GoesOn};
ghost use Rattle.stmt_map.specs.Client.{next_number};
ghost use Rattle.core_promises.specs.Judges.{IsVerdictFor};
ghost use Rattle.core_promises.specs.Administers.{Administered};
ghost use Rattle.core_promises.specs.Ruled.{MakesNothing, Ruling, book_of, ruling_of, situation_at};
ghost use Rattle.core_texts.specs.Texts.{AreMore, key_at};
ghost use Rattle.core_turns.specs.Administering.{ruling_by};
ghost use Rattle.core_turns.specs.Judged.{IsAsPromised, IsOwnVerdict, IsSendable, IsVerdictOn, goes_with, route_by};
ghost use Rattle.core_turns.specs.Preparing.{IsInMemory, named_in};
ghost use Rattle.core_turns.specs.Taken.{IsDueThere, IsTakenUp, OnUp};

use crate::administering::{administer, is_administrators};
use crate::administrator::Administrator;
use crate::answering::answer;
use crate::judged::{Judgement, Verdict, judged};
use crate::preparing::{becomes_prepared, becomes_run};
use crate::turn::{Stop, Turn};
use admin_port::Running;
use core_service::Service;
use core_tables::Tables;
use core_texts::Texts;
use hostgroups::Servers;
use link_state::Form;
use marked_tables::MarkedTables;
use mx_base::{Bytes, ClientNo, Hostgroup, OutOfMemory};
use std::alloc::Global;

// What becomes of the message that came up.
#[tactic(auto, unfolding(core_tables::specs::Tables::tables_of))]
fn judged_of(
    alloc: Global,
    service: &Service,
    servers: &Servers,
    tables: &Tables,
    texts: &Texts,
    client: ClientNo,
) -> Result<Judgement, OutOfMemory>
    requires { IsUpOr ((tables_of tables.now).clients client) }
    ensures is { IfOk result (λ judgement. OnUp client (tables_of tables.now)
        (λ row message. IsVerdictOn (named_in texts.now row.desk.seat.statements message.payload) message.payload judgement.verdict)) }
    ensures own { IfOk result (λ judgement. OnUp client (tables_of tables.now)
        (λ row message. IsOwnVerdict (rules_in service.now) judgement.verdict)) }
    ensures promised { IfOk result (λ judgement. OnUp client (tables_of tables.now)
        (λ row message. IsAsPromised (book_of service.now) (situation_at (key_at texts.now) row.desk) (next_number row.desk.seat.statements)
        client message.payload judgement.verdict)) }
    ensures memory { OnOk result (OnUp client (tables_of tables.now) (λ row message. IsInMemory row.desk.seat.statements message.payload)) }
{
    let Some(row) = tables.clients.get(&client.0) else {
        unreachable!()
    };
    judged(
        alloc,
        service,
        servers,
        texts,
        &row.desk,
        client,
        row.desk.seat.payload(),
    )
}

fn text_of(text: &Option<Bytes>) -> Option<&[u8]>
    ensures { option_copied result ≡ text.now }
{
    match text {
        Some(text) => Some(text.as_slice()),
        None => None,
    }
}

// It goes to a server in this hostgroup, and a statement becomes due.
fn becomes_due(
    marked: &mut MarkedTables,
    client: ClientNo,
    ordinal: u64,
    flag: u16,
    hostgroup: Hostgroup,
    text: Option<Bytes>,
    multiplex: Option<bool>,
    form: Form,
    clock: u64,
) -> Result<(), OutOfMemory>
    requires up { IsUpOr ((tables_of marked.old.tables).clients client) }
    requires sendable { OnUp client (tables_of marked.old.tables)
        (λ row message. IsSendable message.payload text form) }
    ensures is { OnOk result ((ruling : Ruling) → MakesNothing ruling → OnUp client (tables_of marked.old.tables)
        (λ row message. row.desk.seat.port ≡ Traffic
        → IsVerdictFor ruling.book (situation_at ruling.keys row.desk) client message.payload (goes_with (route_by hostgroup text multiplex) None)
        → IsDueThere hostgroup ordinal ruling client row message (tables_of marked.old.tables) (tables_of marked.new.tables))) }
    ensures goes { OnOk result (GoesOn marked.old marked.new) }
{
    let text = text_of(&text);
    let is_due = marked.due(
        client, ordinal, flag, hostgroup, text, multiplex, form, clock,
    )?;
    if is_due { Ok(()) } else { Err(OutOfMemory) }
}

// The message of a client that came up is taken up.
#[tactic(auto, using(crate::proofs::Keys::same_texts))]
fn serve(
    marked: &mut MarkedTables,
    texts: &mut Texts,
    service: &Service,
    servers: &Servers,
    clock: u64,
    alloc: Global,
    client: ClientNo,
    ordinal: u64,
) -> Result<Turn, OutOfMemory>
    requires up { IsUpOr ((tables_of marked.old.tables).clients client) }
    requires port { OnUp client (tables_of marked.old.tables) (λ row message. row.desk.seat.port ≡ Traffic) }
    ensures is { IfOk result (λ turn. (made : Administered) → OnUp client (tables_of marked.old.tables)
        (λ row message. IsTakenUp turn ordinal (ruling_of service.now texts.new.since (key_at texts.new) made made) client row message
        (tables_of marked.old.tables) (tables_of marked.new.tables))) }
    ensures goes { OnOk result (GoesOn marked.old marked.new) }
    ensures more { OnOk result (AreMore texts.old texts.new) }
{
    let Judgement { flag, verdict } = judged_of(
        alloc,
        service,
        servers,
        &marked.tables,
        texts,
        client,
    )?;
    match verdict {
        Verdict::Quits => Ok(Turn::Stops(Stop::Quits { flag })),
        Verdict::Answers(told) => {
            answer(marked, alloc, client, flag, &told)?;
            Ok(Turn::Answered)
        }
        Verdict::Sends {
            hostgroup,
            text,
            multiplex,
            form,
        } => {
            becomes_due(
                marked, client, ordinal, flag, hostgroup, text, multiplex, form, clock,
            )?;
            Ok(Turn::Due { hostgroup })
        }
        Verdict::Prepares {
            hostgroup,
            text,
            multiplex,
            class,
        } => {
            becomes_prepared(
                marked, texts, alloc, client, ordinal, flag, hostgroup, &text, multiplex, class,
                clock,
            )?;
            Ok(Turn::Due { hostgroup })
        }
        Verdict::Runs {
            hostgroup,
            multiplex,
            named,
        } => {
            becomes_run(
                marked, texts, alloc, client, ordinal, flag, hostgroup, multiplex, named, clock,
            )?;
            Ok(Turn::Due { hostgroup })
        }
    }
}

/// The message that came up is taken up, a client's or an administrator's.
#[tactic(auto, using(crate::proofs::Keys::same_texts))]
pub(crate) fn take_up(
    marked: &mut MarkedTables,
    texts: &mut Texts,
    admin: &mut Administrator,
    running: &Running<'_>,
    service: &Service,
    servers: &mut Servers,
    clock: u64,
    alloc: Global,
    client: ClientNo,
    ordinal: u64,
) -> Result<Turn, OutOfMemory>
    requires up { IsUpOr ((tables_of marked.old.tables).clients client) }
    ensures is { IfOk result (λ turn. OnUp client (tables_of marked.old.tables)
        (λ row message. IsTakenUp turn ordinal (ruling_by service.now texts.new admin.old admin.new) client row message
        (tables_of marked.old.tables) (tables_of marked.new.tables))) }
    ensures goes { OnOk result (GoesOn marked.old marked.new) }
    ensures more { OnOk result (AreMore texts.old texts.new) }
{
    if is_administrators(&marked.tables, client) {
        administer(marked, admin, running, service, servers, alloc, client)
    } else {
        serve(
            marked, texts, service, servers, clock, alloc, client, ordinal,
        )
    }
}
