// What administrators work on.
ghost use Rattle.std.specs.Prelude.{◌≡◌, ◌≤◌, [], All, IfOk, IsSome, None, Some};
ghost use Rattle.admin_port.specs.Staged.{with_rules};

use admin_port::{Fault, Staged};
use hostgroups::ServerRow;
use mx_base::OutOfMemory;
use query_rules::{RuleRow, Rules};
use std::alloc::Global;

/// What administrators work on: the staged rows; the rows of servers and of rules that were loaded since it was looked at; the rules that
/// come in force by it, behind the event; and whether the router is to shut down, which was said since it was looked at.
#[derive(Drop)]
pub struct Administrator {
    pub staged: Staged,
    pub servers: Option<Vec<ServerRow>>,
    pub rules: Option<Vec<RuleRow>>,
    pub loaded: Option<Rules>,
    pub shuts: bool,
}

impl Administrator {
    /// Staged are the rows of a configuration: rules that can be.
    pub fn of(alloc: Global, servers: &[ServerRow], rules: &[RuleRow]) -> Result<Self, OutOfMemory>
        requires weights { All (λ row. 1 ≤ row.weight) servers.now }
        requires rules { IsSome (with_rules [] rules.now) }
        ensures unloaded { IfOk result (λ admin. admin.loaded ≡ None) }
        ensures staged { IfOk result (λ admin. with_rules [] rules.now ≡ Some admin.staged.rules) }
    {
        let staged = match Staged::of(alloc, servers, rules) {
            Ok(staged) => staged,
            Err(Fault::Refused) => unreachable!(),
            Err(Fault::OutOfMemory) => return Err(OutOfMemory),
        };
        Ok(Administrator {
            staged,
            servers: None,
            rules: None,
            loaded: None,
            shuts: false,
        })
    }
}
