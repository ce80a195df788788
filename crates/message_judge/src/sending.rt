// What goes to a server.
ghost use Rattle.std.specs.Prelude.{◌≡◌, ℕ, IfOk, IfSome, List, Option, Some, unwrap_or};
ghost use Rattle.std.specs.Option.{option_copied};
ghost use Rattle.pin_classifier.specs.Classes.{class_of};
ghost use Rattle.query_rules.specs.Passing.{rules_of};
ghost use Rattle.query_rules.specs.declared.ask.Routed.{Routed};
ghost use Rattle.query_rules.specs.declared.ask.Stop.{Stop};
ghost use Rattle.query_rules.specs.declared.rule.Rule.{Rule};
ghost use Rattle.own_words.specs.Own.{IsRefusal};
ghost use Rattle.message_judge.specs.Told.{payload_of};
ghost use Rattle.server_rule.specs.Classes.{router_reads};
ghost use Rattle.router_promises.specs.Verdicts as verdicts;
ghost use Rattle.router_promises.specs.Verdicts.{Wanted};
ghost use Rattle.message_judge.specs.Drafts.{draft_of, refusal_by, value_of, verdict_by, wanted_of};
ghost use Rattle.message_judge.specs.Judging.{admitted, by_class, by_pass, hostgroup_for, pass_of, passed_on, plain, ruled, runs};
ghost use Rattle.message_judge.specs.declared.caller.Caller.{Caller};
ghost use Rattle.message_judge.specs.declared.caller.Prepared.{Prepared};
ghost use Rattle.message_judge.specs.declared.draft.ClassOf.TheVariants as classes;
ghost use Rattle.message_judge.specs.declared.draft.Going.{Going};

use crate::caller::{Caller, Prepared, Standing};
use crate::draft::{ClassOf, Draft, Going, Judged};
use crate::own::{own_ok, refuses};
use crate::told::OwnError;
use mx_base::{Bytes, Hostgroup, OutOfMemory};
use pin_classifier::{Class, Refusal, Shape, classify};
use query_rules::{Ask, Routed, Rules, Stop};
use session_state::{Pin, reads_own};
use std::alloc::Global;

/// Whether the whole statement asks for the connection's number alone.
pub fn is_connection_id(shape: &Shape) -> bool
    ensures { result ≡ verdicts.is_connection_id shape.now }
{
    match shape {
        Shape::ConnectionId => true,
        _ => false,
    }
}

// What a text of this class is refused for, whatever its session.
fn refused_for(class: &Class) -> Option<OwnError>
    ensures { (wanted : Wanted) → refusal_by class.now wanted result ≡ by_class class.now class.now.refusal wanted }
{
    match class.refusal {
        Some(Refusal::SetsServer) => Some(OwnError::SetsServer),
        Some(Refusal::NamesConnection) => Some(OwnError::NamesConnection),
        Some(Refusal::ReadsLast) => Some(OwnError::DiagnosticsGone),
        None => {
            if is_connection_id(&class.shape) {
                Some(OwnError::NamesConnection)
            } else {
                None
            }
        }
    }
}

/// The choice of a schema, or the question for a table's columns: it goes to the open transaction's hostgroup, else to the user's own.
pub fn plain(caller: &Caller, standing: Standing) -> Draft
    ensures { (prepared : Option Prepared) → draft_of caller.now prepared result ≡ plain caller.now standing }
{
    Draft::Sends(Going {
        hostgroup: standing.transaction.unwrap_or(caller.home),
        text: None,
        number: None,
        multiplex: None,
        class: ClassOf::Nothing,
    })
}

/// An execute goes where its statement was prepared, unless a transaction is open.
pub fn runs(standing: Standing, prepared: Option<&Prepared>) -> Draft
    ensures { (caller : Caller) → draft_of caller (option_copied prepared.entry) result ≡ runs caller standing (option_copied prepared.entry) }
{
    match prepared {
        Some(prepared) => runs_that(standing, prepared),
        None => refuses(OwnError::MalformedCommand),
    }
}

fn runs_that(standing: Standing, prepared: &Prepared) -> Draft
    ensures { (caller : Caller) → draft_of caller (Some prepared.now) result ≡ runs caller standing (Some prepared.now) }
{
    match refused_for(&prepared.class) {
        Some(why) => refuses(why),
        None => Draft::Sends(Going {
            hostgroup: standing.transaction.unwrap_or(prepared.hostgroup),
            text: None,
            number: None,
            multiplex: prepared.multiplex,
            class: ClassOf::Prepared,
        }),
    }
}

// The hostgroup of a text of this class.
fn hostgroup_for(
    caller: &Caller,
    standing: Standing,
    class: &Class,
    otherwise: Hostgroup,
) -> Hostgroup
    ensures { result ≡ hostgroup_for caller.now standing class.now otherwise }
{
    match standing.transaction {
        Some(hostgroup) => hostgroup,
        None => {
            if class.reads_id || class.reads_diag {
                caller.last.unwrap_or(caller.home)
            } else {
                otherwise
            }
        }
    }
}

/// The pass over the rules, and what becomes of the text by it, of which the class may be known.
pub fn pass(
    alloc: Global,
    rules: &Rules,
    caller: &Caller,
    standing: Standing,
    text: &[u8],
    known: Option<Class>,
    number: Option<u32>,
) -> Result<Judged, OutOfMemory>
    requires { IfSome known (λ class. class ≡ class_of text.now) }
    ensures { IfOk result (λ found. (prepared : Option Prepared) → value_of caller.now prepared found
        ≡ by_pass router_reads caller.now standing (pass_of (rules_of rules.now) caller.now text.now) number) }
{
    let ask = Ask {
        user: Bytes::from_slice(alloc, caller.user.as_slice())?,
        schema: Bytes::from_slice(alloc, caller.place.schema.as_slice())?,
        flag: caller.flag,
        text: Bytes::from_slice(alloc, text)?,
        default_hostgroup: caller.home,
    };
    let routed = rules.route(&ask)?;
    by_pass(alloc, caller, standing, routed, text, known, number)
}

// What becomes of a text by what the rules say.
fn by_pass(
    alloc: Global,
    caller: &Caller,
    standing: Standing,
    routed: Routed,
    came: &[u8],
    known: Option<Class>,
    number: Option<u32>,
) -> Result<Judged, OutOfMemory>
    requires { IfSome known (λ class. class ≡ class_of came.now) }
    ensures { IfOk result (λ found. (prepared : Option Prepared) → value_of caller.now prepared found
        ≡ by_pass router_reads caller.now standing routed number) }
{
    let flag = flag_behind(caller, routed.next_flag);
    let draft = ruled(alloc, caller, standing, routed, came, known, number)?;
    Ok(Judged { draft, flag })
}

fn flag_behind(caller: &Caller, next_flag: Option<u16>) -> u16
    ensures { result ≡ unwrap_or next_flag caller.now.flag }
{
    match next_flag {
        Some(flag) => flag,
        None => caller.flag,
    }
}

fn ruled(
    alloc: Global,
    caller: &Caller,
    standing: Standing,
    routed: Routed,
    came: &[u8],
    known: Option<Class>,
    number: Option<u32>,
) -> Result<Draft, OutOfMemory>
    requires { IfSome known (λ class. class ≡ class_of came.now) }
    ensures { IfOk result (λ draft. (prepared : Option Prepared) → draft_of caller.now prepared draft
        ≡ ruled router_reads caller.now standing routed number routed.stop) }
{
    let Routed {
        hostgroup,
        text,
        multiplex,
        stop,
        ..
    } = routed;
    match stop {
        Some(stop) => Ok(stopped(caller, standing, stop)),
        None => classified(
            alloc, caller, standing, hostgroup, text, multiplex, came, known, number,
        ),
    }
}

// What is answered in place of running the text.
fn stopped(caller: &Caller, standing: Standing, stop: Stop) -> Draft
    ensures { (prepared : Option Prepared) (routed : Routed) (number : Option ℕ) → draft_of caller.now prepared result
        ≡ ruled router_reads caller.now standing routed number (Some stop) }
{
    match stop {
        Stop::Error(text) => refuses(OwnError::RefusedByRule(text)),
        Stop::Ok(text) => own_ok(caller, standing, text),
    }
}

// The class of a text, which is known of the text as it came: mostly no rule rewrites it.
fn class_for(
    alloc: Global,
    came: &[u8],
    known: Option<Class>,
    text: &[u8],
) -> Result<Class, OutOfMemory>
    requires { IfSome known (λ class. class ≡ class_of came.now) }
    ensures { IfOk result (λ class. class ≡ class_of text.now) }
{
    if let Some(class) = known {
        if text == came {
            return Ok(class);
        }
    }
    classify(alloc, text)
}

// A text that the rules let pass, by its class.
fn classified(
    alloc: Global,
    caller: &Caller,
    standing: Standing,
    hostgroup: Hostgroup,
    text: Bytes,
    multiplex: Option<bool>,
    came: &[u8],
    known: Option<Class>,
    number: Option<u32>,
) -> Result<Draft, OutOfMemory>
    requires { IfSome known (λ class. class ≡ class_of came.now) }
    ensures { IfOk result (λ draft. (prepared : Option Prepared) (flag : Option ℕ) (stop : Option Stop) → draft_of caller.now prepared draft
        ≡ passed_on router_reads caller.now standing (record { hostgroup = hostgroup; text = text; next_flag = flag; multiplex = multiplex; stop = stop }) number) }
{
    let class = class_for(alloc, came, known, text.as_slice())?;
    let there = hostgroup_for(caller, standing, &class, hostgroup);
    Ok(passed_on(class, there, text, multiplex, number))
}

// A text that the rules let pass, as they rewrite it.
fn passed_on(
    class: Class,
    hostgroup: Hostgroup,
    text: Bytes,
    multiplex: Option<bool>,
    number: Option<u32>,
) -> Draft
    ensures { (caller : Caller) (prepared : Option Prepared) → draft_of caller prepared result
        ≡ by_class class class.refusal (wanted_of caller prepared (record { hostgroup = hostgroup; text = Some text; number = number; multiplex = multiplex; class = classes.Own class })) }
{
    match refused_for(&class) {
        Some(why) => refuses(why),
        None => Draft::Sends(Going {
            hostgroup,
            text: Some(text),
            number,
            multiplex,
            class: ClassOf::Own(class),
        }),
    }
}

/// Whether what goes to a server is let there: None where it is, and else what is answered. Of a text of a class it is seen by its session's
/// Pin whether what it reads is its own; `is_there` says that a link carries the session, or a server of the hostgroup is ONLINE.
pub fn admit(
    class: Option<&Class>,
    hostgroup: Hostgroup,
    pin: Pin,
    is_there: bool,
) -> Option<OwnError>
    ensures is { (caller : Caller) (prepared : Option Prepared) (going : Going) → going.hostgroup ≡ hostgroup
        → verdict_by (wanted_of caller prepared going) result ≡ admitted (option_copied class.entry) pin is_there (wanted_of caller prepared going) }
    ensures own { (rules : List Rule) → IfSome result (λ why. IsRefusal rules (payload_of why)) }
{
    if let Some(class) = class {
        if !reads_own(pin, class) {
            return Some(OwnError::DiagnosticsGone);
        }
    }
    if is_there {
        None
    } else {
        Some(OwnError::NoServerIn(hostgroup))
    }
}
