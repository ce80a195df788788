// Preparations.
ghost use Rattle.std.specs.Prelude.{◌≡◌, ◌++◌, ◌∷◌, [], IfOk, OnOk, OnErr, codes, replicate};
ghost use Rattle.mem_rule.specs.Commands.{columns_of, definitions, fields, prepared, prepared_payload, prepared_payloads, prepares, prepares_by, prepares_form, text_number};
ghost use Rattle.mem_rule.specs.Forms.{form_of};
ghost use Rattle.mem_rule.specs.Notes.{notes_of};
ghost use Rattle.mem_rule.specs.Scenes.{place_in};
ghost use Rattle.mem_rule.specs.Statements.{asked};
ghost use Rattle.mem_rule.specs.Steps.{table_fault};
ghost use Rattle.session_state.specs.Classes.{effect_in};

use crate::answer::{lone, status};
use crate::column::{columns_of, names, put_copy, put_definitions};
use crate::form::{Values, form_of};
use crate::outcome::{Outcome, fails};
use crate::said::asked;
use crate::scene::Scene;
use crate::statement::table_fault;
use crate::store::Base;
use mem_rule::{Fault, Form, Notes};
use mx_base::{Bytes, Items, OutOfMemory};
use pin_classifier::{Shape, classify};
use server_rule::{ReplyList, Session};
use session_vars::SetShape;
use std::alloc::Global;

// The number of a preparation: a checksum of its text.
fn text_number(text: &[u8]) -> u32
    ensures { result ≡ text_number text.now }
{
    let mut sum: u64 = 7;
    for byte in text {
        sum = (sum * 31 + *byte as u64) % 0x1_0000_0000;
    }
    sum as u32
}

// The OK to a preparation.
fn ok_to_prepare(
    alloc: Global,
    text: &[u8],
    columns: usize,
    parameters: usize,
) -> Result<ReplyList, OutOfMemory>
    ensures { IfOk result (λ out. out ≡ prepared_payload text.now columns parameters ∷ []) }
{
    let [a, b, c, d] = text_number(text).to_le_bytes();
    let columns = (columns % 256) as u8;
    let parameters = (parameters % 256) as u8;
    let payload = Bytes::from_slice(alloc, &[0, a, b, c, d, columns, 0, parameters, 0, 0, 0, 0])?;
    lone(alloc, payload)
}

fn questions(alloc: Global, count: usize) -> Result<Items<Bytes>, OutOfMemory>
    ensures { IfOk result (λ names. names ≡ replicate count (codes "?")) }
{
    let mut out = Items::new(alloc);
    for _ in 0..count {
        put_copy(alloc, &mut out, b"?")?;
    }
    Ok(out)
}

fn put_questions(
    alloc: Global,
    out: &mut ReplyList,
    status: u8,
    count: usize,
) -> Result<(), OutOfMemory>
    ensures { OnOk result (out.new ≡ out.old ++ definitions status (replicate count (codes "?"))) }
{
    let questions = questions(alloc, count)?;
    put_definitions(alloc, out, status, questions.as_slice())
}

fn prepared_payloads(
    alloc: Global,
    text: &[u8],
    status: u8,
    columns: &[Bytes],
    parameters: usize,
) -> Result<ReplyList, OutOfMemory>
    ensures { IfOk result (λ out. out ≡ prepared_payloads text.now status columns.now parameters) }
{
    let mut out = ok_to_prepare(alloc, text, columns.len(), parameters)?;
    put_questions(alloc, &mut out, status, parameters)?;
    put_definitions(alloc, &mut out, status, columns)?;
    Ok(out)
}

fn prepared(
    alloc: Global,
    text: &[u8],
    columns: &[Bytes],
    parameters: usize,
    s: &mut Session,
) -> Result<Outcome, OutOfMemory>
    ensures ok { IfOk result (λ out. prepared text.now columns.now parameters s.old ≡ record { writes = out.writes; session = s.new; reply = out.reply }) }
    ensures err { OnErr result (s.new ≡ s.old) }
{
    let status = status(&s.tx, &s.settings);
    let reply = prepared_payloads(alloc, text, status, columns, parameters)?;
    s.diag = Bytes::new(alloc);
    Ok(Outcome {
        writes: Notes::new(alloc),
        reply,
    })
}

fn prepared_form(
    alloc: Global,
    text: &[u8],
    form: Form,
    values: &Values,
    s: &mut Session,
) -> Result<Outcome, OutOfMemory>
    ensures ok { IfOk result (λ out. prepared text.now (columns_of form) (asked values.now) s.old ≡ record { writes = out.writes; session = s.new; reply = out.reply }) }
    ensures err { OnErr result (s.new ≡ s.old) }
{
    let columns = columns_of(alloc, form)?;
    prepared(alloc, text, columns.as_slice(), asked(values.as_slice()), s)
}

// A text by its form.
fn prepares_form(alloc: Global, text: &[u8], s: &mut Session) -> Result<Outcome, OutOfMemory>
    ensures ok { IfOk result (λ out. prepares_form text.now (form_of text.now) s.old ≡ record { writes = out.writes; session = s.new; reply = out.reply }) }
    ensures err { OnErr result (s.new ≡ s.old) }
{
    match form_of(alloc, text)? {
        None => fails(alloc, Fault::Syntax, s),
        Some((form, values)) => prepared_form(alloc, text, form, &values, s),
    }
}

// A text of this shape.
fn prepares_by(
    alloc: Global,
    shape: &Shape,
    text: &[u8],
    s: &mut Session,
) -> Result<Outcome, OutOfMemory>
    ensures ok { IfOk result (λ out. prepares_by (effect_in shape.now) text.now s.old ≡ record { writes = out.writes; session = s.new; reply = out.reply }) }
    ensures err { OnErr result (s.new ≡ s.old) }
{
    match shape {
        Shape::Set(SetShape::Tracked(_)) => prepared(alloc, text, &[], 0, s),
        Shape::Use(_) => prepared(alloc, text, &[], 0, s),
        _ => prepares_form(alloc, text, s),
    }
}

pub(crate) fn prepares(alloc: Global, text: &[u8], s: &mut Session) -> Result<Outcome, OutOfMemory>
    ensures ok { IfOk result (λ out. prepares text.now s.old ≡ record { writes = out.writes; session = s.new; reply = out.reply }) }
    ensures err { OnErr result (s.new ≡ s.old) }
{
    let class = classify(alloc, text)?;
    prepares_by(alloc, &class.shape, text, s)
}

// Why the table of the session's schema is refused, where it is.
fn fault_in(alloc: Global, base: &Base, s: &Session) -> Result<Option<Fault>, OutOfMemory>
    ensures { IfOk result (λ fault. fault ≡ table_fault (place_in base.now s.now.locks (notes_of s.now.deep) s.now.schema)) }
{
    let scene = Scene::new(alloc, base, s, &s.schema)?;
    Ok(table_fault(&scene))
}

fn field_payloads(alloc: Global, status: u8) -> Result<ReplyList, OutOfMemory>
    ensures { IfOk result (λ out. out ≡ definitions status (codes "id" ∷ codes "v" ∷ [])) }
{
    let columns = names(alloc, &[b"id", b"v"])?;
    let mut reply = ReplyList::new(alloc);
    put_definitions(alloc, &mut reply, status, columns.as_slice())?;
    Ok(reply)
}

// FIELD_LIST: the columns of the table.
pub(crate) fn fields(alloc: Global, base: &Base, s: &mut Session) -> Result<Outcome, OutOfMemory>
    ensures ok { IfOk result (λ out. fields base.now s.old ≡ record { writes = out.writes; session = s.new; reply = out.reply }) }
    ensures err { OnErr result (s.new ≡ s.old) }
{
    if let Some(fault) = fault_in(alloc, base, s)? {
        return fails(alloc, fault, s);
    }
    let reply = field_payloads(alloc, status(&s.tx, &s.settings))?;
    s.diag = Bytes::new(alloc);
    Ok(Outcome {
        writes: Notes::new(alloc),
        reply,
    })
}
