// Where a pass over the rules stands.
ghost use Rattle.std.specs.Prelude.{◌≡◌, IfOk};
ghost use Rattle.query_rules.specs.Passing.{beginning, routed};

use crate::{Ask, Routed, Stop};
use mx_base::{Bytes, Hostgroup, OutOfMemory};
use std::alloc::Global;

/// What the rules so far have set.
#[derive(Drop)]
pub struct Pass {
    /// The rules of this flag are tried.
    pub(crate) flag: u16,
    /// The text as rewritten so far.
    pub(crate) text: Bytes,
    pub(crate) hostgroup: Option<Hostgroup>,
    /// The flag of the session's next text.
    pub(crate) next_flag: Option<u16>,
    pub(crate) multiplex: Option<bool>,
    pub(crate) stop: Option<Stop>,
}

impl Pass {
    /// A pass at its first rule.
    pub(crate) fn begin(alloc: Global, ask: &Ask) -> Result<Pass, OutOfMemory>
        ensures { IfOk result (λ pass. pass ≡ beginning ask.now) }
    {
        Ok(Pass {
            flag: ask.flag,
            text: Bytes::from_slice(alloc, ask.text.as_slice())?,
            hostgroup: None,
            next_flag: None,
            multiplex: None,
            stop: None,
        })
    }

    /// What a pass at its end says.
    pub(crate) fn routed(self, default_hostgroup: Hostgroup) -> Routed
        ensures { result ≡ routed default_hostgroup self }
    {
        Routed {
            hostgroup: self.hostgroup.unwrap_or(default_hostgroup),
            text: self.text,
            next_flag: self.next_flag,
            multiplex: self.multiplex,
            stop: self.stop,
        }
    }
}
