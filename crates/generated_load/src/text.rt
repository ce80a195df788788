// What is printed of a load.
ghost use Rattle.std.specs.Prelude.{◌≡◌, ◌++◌, IfOk, OnOk};
ghost use Rattle.generated_load.specs.Text.{line_of, lines_of, load_text};

use crate::LoadAsk;
use crate::counts::{Counts, count};
use mx_base::{Bytes, OutOfMemory};
use mx_wire::Entry;
use std::alloc::Global;

// Adds the line of a number.
#[tactic(auto, unfolding(crate::specs::Text::line_of))]
fn add_line(alloc: Global, text: &mut Bytes, name: &str, number: u64) -> Result<(), OutOfMemory>
    ensures { OnOk result (text.new ≡ text.old ++ line_of name.now number) }
{
    let line = format!(in alloc; "{name} {number}\n")?;
    text.append(line.as_bytes())
}

fn lines_of(alloc: Global, ask: &LoadAsk, counts: &Counts) -> Result<Bytes, OutOfMemory>
    ensures { IfOk result (λ text. text ≡ lines_of ask.now counts.now) }
{
    let mut text = Bytes::new(alloc);
    add_line(alloc, &mut text, "clients", ask.clients)?;
    add_line(alloc, &mut text, "statements", ask.statements)?;
    add_line(alloc, &mut text, "opens", counts.opens as u64)?;
    add_line(alloc, &mut text, "resets", counts.resets as u64)?;
    add_line(alloc, &mut text, "ok", counts.ok as u64)?;
    add_line(alloc, &mut text, "errors", counts.errors as u64)?;
    Ok(text)
}

/// The six lines of a load: what was asked, and what is counted of its log.
pub fn load_text(alloc: Global, ask: &LoadAsk, log: &[Entry]) -> Result<Bytes, OutOfMemory>
    ensures { IfOk result (λ text. text ≡ load_text ask.now log.now) }
{
    let counts = count(alloc, log)?;
    lines_of(alloc, ask, &counts)
}
