// The bytes of an answer.
ghost use Rattle.admin_port.specs.Answers.{HasWholeTable, reply_of};
ghost use Rattle.admin_port.specs.Payloads.{Writes, done_payloads, refusal_payloads, reply_payloads, sheet_payloads};
ghost use Rattle.admin_port.specs.Sheets.{IsWhole, sheet_of};

use crate::answer::{Answer, Refusal};
use mx_base::OutOfMemory;
use reply_text::{Table, write_err, write_ok, write_table};

/// AUTOCOMMIT (client/server protocol, "Status Flags"): an administrator is in no transaction.
const STATUS: u16 = 2;

#[tactic(auto, using(crate::proofs::Written::written))]
fn write_done(out: &mut Vec<u8>, first: u8) -> Result<u8, OutOfMemory>
    ensures { Writes result out.old.items out.new.items first done_payloads }
{
    write_ok(out, first, STATUS, b"")
}

#[tactic(auto, using(crate::proofs::Written::written))]
fn write_rows(out: &mut Vec<u8>, first: u8, table: &Table) -> Result<u8, OutOfMemory>
    requires { IsWhole table.now }
    ensures { Writes result out.old.items out.new.items first (sheet_payloads (sheet_of table.now)) }
{
    write_table(out, first, STATUS, table)
}

#[tactic(auto, using(crate::proofs::Written::written))]
fn write_refusal(out: &mut Vec<u8>, first: u8, refusal: &Refusal) -> Result<u8, OutOfMemory>
    ensures { Writes result out.old.items out.new.items first (refusal_payloads refusal.now) }
{
    let text = refusal.text(*out.allocator())?;
    write_err(out, first, refusal.code(), b"HY000", text.as_slice())
}

/// Appends an answer, whose first packet has the sequence id `first`. Answers the id behind the last packet's. OutOfMemory leaves
/// `out` as it was.
pub fn write_answer(out: &mut Vec<u8>, first: u8, answer: &Answer) -> Result<u8, OutOfMemory>
    requires { HasWholeTable answer.now }
    ensures { Writes result out.old.items out.new.items first (reply_payloads (reply_of answer.now)) }
{
    match answer {
        Answer::Rows(table) => write_rows(out, first, table),
        Answer::Refused(refusal) => write_refusal(out, first, refusal),
        Answer::Done | Answer::Load(_) | Answer::Shutdown => write_done(out, first),
    }
}
