// What becomes of a message that came up.
ghost use Rattle.std.specs.Prelude.{◌≡◌, ◌<◌, ◌≤◌, ℕ, false, true, is_some, nat_eq, drop, length, List, None, IfOk, IfSome, OnOk, Option};
ghost use Rattle.std.specs.Option.{option_copied};
ghost use Rattle.log_story.specs.Plan.{com_init_db};
ghost use Rattle.link_state.specs.Classes as link_classes;
ghost use Rattle.link_state.specs.declared.asking.Form.TheVariants as forms;
ghost use Rattle.message_judge.specs.Drafts.{IsOwnDraft, class_in};
ghost use Rattle.message_judge.specs.Told.{IsOwnTold};
ghost use Rattle.message_judge.specs.declared.draft.Draft.TheVariants as drafts;
ghost use Rattle.query_rules.specs.Effects.{is_first_flag};
ghost use Rattle.query_rules.specs.declared.rule.Rule.{Rule};
ghost use Rattle.mx_base.specs.declared.names.ClientNo.{ClientNo};
ghost use Rattle.private_model.specs.Story.{Key};
ghost use Rattle.router_promises.specs.Statements.{are_types};
ghost use Rattle.stmt_map.specs.Client.{next_number};
ghost use Rattle.core_laws.specs.clients.Found.{user_in};
ghost use Rattle.client_desk.specs.Desks.{session_of};
ghost use Rattle.core_promises.specs.Judges.{IsTransaction, Rulebook, Situation};
ghost use Rattle.core_promises.specs.Ruled.{book_of, known_as, situation_at};
ghost use Rattle.core_promises.specs.Statements.{number_named};
ghost use Rattle.core_service.specs.Serves.{home_in, rules_in};
ghost use Rattle.core_texts.specs.Texts.{key_at};
ghost use Rattle.core_texts.specs.declared.texts.Texts.{Texts};
ghost use Rattle.core_turns.specs.Judged.{IsAsPromised, IsDraftFor, IsOwnVerdict, IsVerdictOn, byte_of, form_by, sent_by, sent_plain, sent_text};
ghost use Rattle.core_turns.specs.Preparing.{IsHeld, IsHeldIf, IsInMemory, named_in, prepared_of, statement_named};

use client_desk::{Desk, Session};
use command_parse::{COM_INIT_DB, COM_STMT_EXECUTE, COM_STMT_RESET};
use core_service::Service;
use core_texts::{Kept, Texts, copy_of};
use hostgroups::Servers;
use link_state::{Form, use_class};
use message_judge::{
    Caller, ClassOf, Draft, Going, Judged, Prepared, Standing, Told, admit, judge,
};
use mx_base::{Bytes, ClientNo, Hostgroup, OutOfMemory, get_u32};
use pin_classifier::Class;
use session_state::Place;
use std::alloc::Global;
use stmt_map::Statement;

/// What becomes of a message.
#[derive(Drop)]
pub(crate) enum Verdict {
    /// The client says that it quits.
    Quits,
    Answers(Told),
    /// It goes to a server in this hostgroup, with this text in place of its own.
    Sends {
        hostgroup: Hostgroup,
        text: Option<Bytes>,
        multiplex: Option<bool>,
        form: Form,
    },
    /// This text of this class is to be prepared in this hostgroup.
    Prepares {
        hostgroup: Hostgroup,
        text: Bytes,
        multiplex: Option<bool>,
        class: Class,
    },
    /// This statement is executed in this hostgroup.
    Runs {
        hostgroup: Hostgroup,
        multiplex: Option<bool>,
        named: Named,
    },
}

/// The statement that a message names: the key of its preparation, and what is known of it.
#[derive(Drop)]
pub(crate) struct Named {
    pub key: u64,
    pub prepared: Prepared,
}

/// What becomes of a message, and the flag by which rules are tried first behind it.
#[derive(Drop)]
pub(crate) struct Judgement {
    pub flag: u16,
    pub verdict: Verdict,
}

// The name with which the client logged in.
fn user_of(alloc: Global, desk: &Desk) -> Result<Bytes, OutOfMemory>
    ensures { IfOk result (λ user. user ≡ user_in desk.now.seat.phase) }
{
    match desk.seat.account() {
        Some(account) => Bytes::from_slice(alloc, account.user()),
        None => Ok(Bytes::new(alloc)),
    }
}

// The flag by which rules are tried first for a client: the one that a rule left, or 0.
fn flag_of(service: &Service, desk: &Desk) -> u16
    ensures first { is_first_flag (rules_in service.now) result ≡ true }
    ensures kept { is_first_flag (rules_in service.now) desk.now.seat.flag ≡ true → result ≡ desk.now.seat.flag }
{
    if service.rules().is_first_flag(desk.seat.flag) {
        desk.seat.flag
    } else {
        0
    }
}

// What is known of a client as its message comes up.
fn caller_of(
    alloc: Global,
    service: &Service,
    desk: &Desk,
    client: ClientNo,
) -> Result<Caller, OutOfMemory>
    ensures client { IfOk result (λ caller. caller.number ≡ client) }
    ensures login { IfOk result (λ caller. caller.user ≡ user_in desk.now.seat.phase) }
    ensures home { IfOk result (λ caller. caller.home ≡ home_in service.now.users (user_in desk.now.seat.phase)) }
    ensures place { IfOk result (λ caller. caller.place ≡ desk.now.seat.place) }
    ensures flag { IfOk result (λ caller. is_first_flag (rules_in service.now) caller.flag ≡ true) }
{
    let user = user_of(alloc, desk)?;
    let home = service.home(&user);
    Ok(Caller {
        number: client,
        user,
        home,
        place: Place {
            schema: Bytes::from_slice(alloc, desk.seat.place.schema.as_slice())?,
            settings: desk.seat.place.settings.copy()?,
        },
        flag: flag_of(service, desk),
        last: desk.seat.last,
    })
}

// The number of the statement that an execute or a reset names.
fn number_named(payload: &[u8]) -> Option<u32>
    ensures { result ≡ number_named payload.now }
{
    match payload {
        [byte, ..] if *byte == COM_STMT_EXECUTE || *byte == COM_STMT_RESET => get_u32(payload, 1),
        _ => None,
    }
}

// The client's statement that a message names.
fn statement_named<'a>(desk: &'a Desk, payload: &[u8]) -> Option<&'a Statement>
    ensures { option_copied result ≡ statement_named desk.now.seat.statements payload.now }
{
    desk.seat.statements.find(number_named(payload)?)
}

// What memory bounds.
fn measure(statement: &Statement)
    ensures { IsHeld statement.now }
{
    let _params = statement.prepared.params;
    let parts = statement.long.parts();
    for part in parts {
        let _size = part.bytes.as_slice().len();
    }
}

// What memory bounds of a message, of the statement that it names, and of its client's numbers.
fn measure_all(desk: &Desk, payload: &[u8])
    ensures { IsInMemory desk.now.seat.statements payload.now }
{
    let _last = desk.seat.statements.last;
    let _size = payload.len();
    if let Some(statement) = statement_named(desk, payload) {
        measure(statement);
    }
}

fn has_types(types: &Option<Bytes>, params: u16) -> bool
    ensures { result ≡ are_types params types.now }
{
    match types {
        Some(types) => types.as_slice().len() == 2 * params as usize,
        None => false,
    }
}

// What is known of a statement, whose text is kept.
fn known_of(alloc: Global, statement: &Statement, kept: &Kept) -> Result<Prepared, OutOfMemory>
    ensures { IfOk result (λ known. known ≡ known_as kept.now statement.now) }
{
    let prepared = statement.prepared;
    let place = kept.place();
    Ok(Prepared {
        text: Bytes::from_slice(alloc, kept.text())?,
        place: Place {
            schema: Bytes::from_slice(alloc, place.schema.as_slice())?,
            settings: place.settings.copy()?,
        },
        params: prepared.params,
        bound: has_types(&statement.types, prepared.params),
        hostgroup: prepared.hostgroup,
        multiplex: prepared.multiplex,
        class: copy_of(alloc, kept.class())?,
    })
}

// The statement that a message names, where its client prepared it.
fn named_by(
    alloc: Global,
    texts: &Texts,
    desk: &Desk,
    payload: &[u8],
) -> Result<Option<Named>, OutOfMemory>
    ensures { IfOk result (λ named. named ≡ named_in texts.now desk.now.seat.statements payload.now) }
{
    let Some(statement) = statement_named(desk, payload) else {
        return Ok(None);
    };
    let key = statement.prepared.key;
    match texts.find(key) {
        Some(kept) => Ok(Some(Named {
            key,
            prepared: known_of(alloc, statement, kept)?,
        })),
        None => Ok(None),
    }
}

fn class_of<'a>(class: &'a ClassOf, prepared: Option<&'a Prepared>) -> Option<&'a Class>
    ensures { option_copied result ≡ class_in (option_copied prepared.entry) class.now }
{
    match class {
        ClassOf::Nothing => None,
        ClassOf::Own(class) => Some(class),
        ClassOf::Prepared => match prepared {
            Some(prepared) => Some(&prepared.class),
            None => None,
        },
    }
}

fn prepared_in(named: &Option<Named>) -> Option<&Prepared>
    ensures { option_copied result ≡ prepared_of named.now }
{
    match named {
        Some(named) => Some(&named.prepared),
        None => None,
    }
}

// Whether it chooses a schema.
fn names_schema(payload: &[u8]) -> bool
    ensures { result ≡ nat_eq (byte_of payload.now) com_init_db }
{
    match payload {
        [byte, ..] => *byte == COM_INIT_DB,
        _ => false,
    }
}

// What stands behind the command byte.
fn behind_byte(payload: &[u8]) -> &[u8]
    ensures { result.now ≡ drop 1 payload.now }
{
    match payload {
        [_, rest @ ..] => rest,
        _ => payload,
    }
}

// The choice of a schema has the class of a USE.
fn schema_form(alloc: Global, payload: &[u8]) -> Result<Form, OutOfMemory>
    ensures { IfOk result (λ form. form ≡ forms.Text (link_classes.use_class (drop 1 payload.now))) }
{
    let schema = Bytes::from_slice(alloc, behind_byte(payload))?;
    Ok(Form::Text(use_class(schema)))
}

// How what has no text stands on a link.
fn plain_form(alloc: Global, payload: &[u8]) -> Result<Form, OutOfMemory>
    ensures { IfOk result (λ form. form ≡ form_by payload.now) }
{
    if names_schema(payload) {
        schema_form(alloc, payload)
    } else {
        Ok(Form::Fields)
    }
}

// A text of this class goes as a query, or to be prepared.
fn sends_text(
    hostgroup: Hostgroup,
    text: Option<Bytes>,
    multiplex: Option<bool>,
    number: Option<u32>,
    class: Class,
) -> Verdict
    ensures { result ≡ sent_text hostgroup text multiplex number class }
{
    match (text, number) {
        (Some(text), Some(_)) => Verdict::Prepares {
            hostgroup,
            text,
            multiplex,
            class,
        },
        (Some(text), None) => Verdict::Sends {
            hostgroup,
            text: Some(text),
            multiplex,
            form: Form::Text(class),
        },
        (None, _) => Verdict::Sends {
            hostgroup,
            text: None,
            multiplex,
            form: Form::Text(class),
        },
    }
}

// What has no text.
fn sends_plain(
    alloc: Global,
    hostgroup: Hostgroup,
    multiplex: Option<bool>,
    payload: &[u8],
) -> Result<Verdict, OutOfMemory>
    ensures { IfOk result (λ verdict. verdict ≡ sent_plain hostgroup multiplex payload.now) }
{
    Ok(Verdict::Sends {
        hostgroup,
        text: None,
        multiplex,
        form: plain_form(alloc, payload)?,
    })
}

// As it goes to a server: of what names a statement only an execute does.
fn goes(
    alloc: Global,
    payload: &[u8],
    going: Going,
    named: Option<Named>,
) -> Result<Verdict, OutOfMemory>
    ensures { IfOk result (λ verdict. verdict ≡ sent_by payload.now going named) }
{
    let Going {
        hostgroup,
        text,
        number,
        multiplex,
        class,
    } = going;
    match (named, class) {
        (Some(named), _) => Ok(Verdict::Runs {
            hostgroup,
            multiplex,
            named,
        }),
        (None, ClassOf::Own(class)) => Ok(sends_text(hostgroup, text, multiplex, number, class)),
        (None, ClassOf::Prepared) => sends_plain(alloc, hostgroup, multiplex, payload),
        (None, ClassOf::Nothing) => sends_plain(alloc, hostgroup, multiplex, payload),
    }
}

// Whether there is a link or a server for a session in this hostgroup.
fn is_there(servers: &Servers, session: Session, hostgroup: Hostgroup) -> bool
    ensures { is_some session.home ≡ true → result ≡ true }
{
    if session.home.is_some() {
        true
    } else {
        servers.online(hostgroup)
    }
}

// It goes to a server, where it may.
fn sent(
    alloc: Global,
    servers: &Servers,
    desk: &Desk,
    payload: &[u8],
    going: Going,
    named: Option<Named>,
) -> Result<Verdict, OutOfMemory>
    ensures is { IfOk result (λ verdict. (book : Rulebook) (keys : (key : ℕ) → Option Key) (c : ClientNo)
        → IsDraftFor book (situation_at keys desk.now) (next_number desk.now.seat.statements) c payload.now (prepared_of named) (drafts.Sends going)
        → IsVerdictOn named payload.now verdict) }
    ensures own { IfOk result (λ verdict. (rules : List Rule) → IsOwnVerdict rules verdict) }
    ensures promised { IfOk result (λ verdict. (book : Rulebook) (keys : (key : ℕ) → Option Key) (c : ClientNo)
        → IsDraftFor book (situation_at keys desk.now) (next_number desk.now.seat.statements) c payload.now (prepared_of named) (drafts.Sends going)
        → IsAsPromised book (situation_at keys desk.now) (next_number desk.now.seat.statements) c payload.now verdict) }
{
    let session = desk.session(going.hostgroup);
    let is_there = is_there(servers, session, going.hostgroup);
    if let Some(why) = admit(
        class_of(&going.class, prepared_in(&named)),
        going.hostgroup,
        session.pin,
        is_there,
    ) {
        return Ok(Verdict::Answers(Told::Error(why)));
    }
    goes(alloc, payload, going, named)
}

fn verdict_of(
    alloc: Global,
    servers: &Servers,
    desk: &Desk,
    payload: &[u8],
    draft: Draft,
    named: Option<Named>,
) -> Result<Verdict, OutOfMemory>
    ensures is { IfOk result (λ verdict. (book : Rulebook) (keys : (key : ℕ) → Option Key) (c : ClientNo)
        → IsDraftFor book (situation_at keys desk.now) (next_number desk.now.seat.statements) c payload.now (prepared_of named) draft
        → IsVerdictOn named payload.now verdict) }
    ensures own { IfOk result (λ verdict. (rules : List Rule) → IsOwnDraft rules draft → IsOwnVerdict rules verdict) }
    ensures promised { IfOk result (λ verdict. (book : Rulebook) (keys : (key : ℕ) → Option Key) (c : ClientNo)
        → IsDraftFor book (situation_at keys desk.now) (next_number desk.now.seat.statements) c payload.now (prepared_of named) draft
        → IsAsPromised book (situation_at keys desk.now) (next_number desk.now.seat.statements) c payload.now verdict) }
{
    match draft {
        Draft::Ends => Ok(Verdict::Quits),
        Draft::Answers(told) => Ok(Verdict::Answers(told)),
        Draft::Sends(going) => sent(alloc, servers, desk, payload, going, named),
    }
}

// The hostgroup of its open transaction: of several, the first of these, where it is in one of them.
fn transaction_of(desk: &Desk, hostgroups: &[Hostgroup]) -> Option<Hostgroup>
    ensures { (book : Rulebook) (situation : Situation) → book.hostgroups ≡ hostgroups.now
        → situation.pins ≡ (λ hostgroup. (session_of desk.now hostgroup).pin) → IsTransaction book situation result }
{
    match desk.transaction(hostgroups) {
        Some(hostgroup) => Some(hostgroup),
        None => desk.any_transaction(),
    }
}

// By the rules, and by what is known of the client.
fn drafted(
    alloc: Global,
    service: &Service,
    desk: &Desk,
    client: ClientNo,
    payload: &[u8],
    named: &Option<Named>,
) -> Result<Judged, OutOfMemory>
    ensures own { IfOk result (λ judged. IsOwnDraft (rules_in service.now) judged.draft) }
    ensures known { IfOk result (λ judged. (texts : Texts) → named.now ≡ named_in texts desk.now.seat.statements payload.now
        → IsDraftFor (book_of service.now) (situation_at (key_at texts) desk.now) (next_number desk.now.seat.statements) client payload.now
        (prepared_of named.now) judged.draft) }
{
    let caller = caller_of(alloc, service, desk, client)?;
    let standing = Standing {
        transaction: transaction_of(desk, service.hostgroups.as_slice()),
        next_number: desk.seat.statements.next_number(),
    };
    judge(
        alloc,
        service.rules(),
        &caller,
        standing,
        prepared_in(named),
        payload,
    )
}

/// What becomes of a client's message with this payload.
pub(crate) fn judged(
    alloc: Global,
    service: &Service,
    servers: &Servers,
    texts: &Texts,
    desk: &Desk,
    client: ClientNo,
    payload: &[u8],
) -> Result<Judgement, OutOfMemory>
    ensures is { IfOk result (λ judgement. IsVerdictOn (named_in texts.now desk.now.seat.statements payload.now) payload.now judgement.verdict) }
    ensures own { IfOk result (λ judgement. IsOwnVerdict (rules_in service.now) judgement.verdict) }
    ensures promised { IfOk result (λ judgement. IsAsPromised (book_of service.now) (situation_at (key_at texts.now) desk.now)
        (next_number desk.now.seat.statements) client payload.now judgement.verdict) }
    ensures memory { OnOk result (IsInMemory desk.now.seat.statements payload.now) }
{
    measure_all(desk, payload);
    let named = named_by(alloc, texts, desk, payload)?;
    let Judged { draft, flag } = drafted(alloc, service, desk, client, payload, &named)?;
    let verdict = verdict_of(alloc, servers, desk, payload, draft, named)?;
    Ok(Judgement { flag, verdict })
}
