// What follows of a client's turns for what is chosen by.
ghost use Rattle.std.specs.Prelude.{◌≡◌, IfOk, IsPermutation, None, OnOk};
ghost use Rattle.mx_config.specs.Lawful.{IsLawful};
ghost use Rattle.shared_core.specs.Stands.{Chooses};

use crate::router::Router;
use core_turns::{Administrator, Stop, Went};
use mx_base::{ClientNo, OutOfMemory};
use mx_config::Config;
use std::alloc::Global;

/// Staged are the rows of a configuration that was read.
pub(crate) fn admin_of(alloc: Global, config: &Config) -> Result<Administrator, OutOfMemory>
    requires { IsLawful config.now }
    ensures unloaded { IfOk result (λ admin. admin.loaded ≡ None) }
    ensures staged { IfOk result (λ admin. IsPermutation config.now.rules admin.staged.rules) }
{
    Administrator::of(alloc, config.servers.as_slice(), config.rules.as_slice())
}

impl Router {
    /// A client took its turns: a statement that became due is counted, a login that was refused is noted, and what an administrator put in
    /// force is followed, or that the router is to shut down.
    pub(crate) fn took(&mut self, client: ClientNo, went: &Option<Went>) -> Result<(), OutOfMemory>
        ensures { OnOk result (Chooses self.old self.new) }
    {
        self.fresh.push(client)?;
        match went {
            Some(Went { due: Some(_), .. }) => {
                self.policy
                    .states(&self.marked.tables, &self.texts, client)?;
            }
            Some(
                Went {
                    stop: Stop::Ends,
                    ..
                },
            ) => self.policy.login_refused(client, self.came.clock),
            _ => {}
        }
        if let Some(rows) = self.admin.servers.take() {
            self.policy.reloaded(rows, self.came.clock);
        }
        if let Some(rows) = self.admin.rules.take() {
            self.policy.board.rules = rows;
        }
        if self.admin.shuts {
            self.admin.shuts = false;
            self.policy.shuts_down(&self.marked.tables, client);
        }
        Ok(())
    }
}
