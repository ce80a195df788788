// For whom a report is made.
ghost use Rattle.std.specs.Prelude.{◌≡◌, IfOk};
ghost use Rattle.audit_report.specs.Report.{ask_of};

use mx_base::{Bytes, Hostgroup, OutOfMemory};
use query_rules::Ask;
use std::alloc::Global;

/// The client whose statements a report reads: each one is routed as its session's first.
#[derive(Drop)]
pub struct AuditAsk {
    pub user: Bytes,
    pub schema: Bytes,
    /// Where a statement goes where no rule says so.
    pub default_hostgroup: Hostgroup,
}

impl AuditAsk {
    // What is asked of the rules for a line.
    pub(crate) fn of(&self, alloc: Global, line: &[u8]) -> Result<Ask, OutOfMemory>
        ensures { IfOk result (λ ask. ask ≡ ask_of self.now line.now) }
    {
        Ok(Ask {
            user: Bytes::from_slice(alloc, self.user.as_slice())?,
            schema: Bytes::from_slice(alloc, self.schema.as_slice())?,
            flag: 0,
            text: Bytes::from_slice(alloc, line)?,
            default_hostgroup: self.default_hostgroup,
        })
    }
}
