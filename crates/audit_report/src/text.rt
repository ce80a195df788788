// A report as it is printed.
ghost use Rattle.std.specs.Prelude.{◌≡◌, ◌++◌, IfOk, OnOk, flat_map};
ghost use Rattle.audit_report.specs.Text.{line_of, report_text};

use crate::ReportRow;
use mx_base::{Bytes, OutOfMemory};
use std::alloc::Global;

// Appends the line of a row.
#[tactic(auto, unfolding(crate::specs::Text::line_of))]
fn write_line(alloc: Global, out: &mut Bytes, row: &ReportRow) -> Result<(), OutOfMemory>
    ensures { OnOk result (out.new ≡ out.old ++ line_of row.now) }
{
    let count = row.count;
    let class = row.class;
    let hostgroup = row.hostgroup.0;
    let front = format!(in alloc; "{count} {class} {hostgroup} ")?;
    out.append(front.as_bytes())?;
    out.append(row.digest.as_slice())?;
    out.append(b"\n")
}

/// The lines of a report, `<count> <class> <hostgroup> <digest>` for each row, each ended by a line feed.
pub fn report_text(alloc: Global, rows: &[ReportRow]) -> Result<Bytes, OutOfMemory>
    ensures { IfOk result (λ text. text ≡ report_text rows.now) }
{
    let mut text = Bytes::new(alloc);
    for row in rows {
        write_line(alloc, &mut text, row)?;
    }
    Ok(text)
}
