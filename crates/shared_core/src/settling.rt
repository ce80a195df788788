// What is chosen between events is done.
ghost use Rattle.std.specs.Prelude.{◌≡◌, OnOk, true};
ghost use Rattle.row_laws.specs.Readied.{IsStepFor};
ghost use Rattle.router_laws.specs.wakes.Settling.{MayState};
ghost use Rattle.shared_core.specs.Stands.{Moves, SettlesSo, tables};

use crate::needing::{text_of_work, wants_prepared};
use crate::router::Router;
use crate::rows::{is_step, may_begin, may_state};
use core_policy::Deed;
use core_service::Service;
use link_state::{Purpose, Wish};
use mx_base::{LinkId, OutOfMemory};
use session_state::SessionName;

// Whether a step is for a session, or for nobody.
fn is_for(purpose: &Purpose) -> bool
    ensures { result ≡ true → IsStepFor purpose.now }
{
    match purpose {
        Purpose::Sync { .. } => true,
        Purpose::Own => true,
        _ => false,
    }
}

impl Router {
    /// Links are lent, and what goes to them next is looked for, until nothing is left to do.
    pub(crate) fn settle(&mut self, service: &Service) -> Result<(), OutOfMemory>
        ensures settles { OnOk result (SettlesSo self.old self.new) }
        ensures moves { OnOk result (Moves self.old self.new) }
    {
        'deeds: for _ in 0..u64::MAX {
            let deed = self
                .policy
                .deed(&self.marked.tables, &self.texts, service, self.came.clock)?;
            match deed {
                Some(deed) => self.does(deed)?,
                None => return Ok(()),
            }
        }
        Ok(())
    }

    fn does(&mut self, deed: Deed) -> Result<(), OutOfMemory>
        ensures settles { OnOk result (SettlesSo self.old self.new) }
        ensures moves { OnOk result (Moves self.old self.new) }
    {
        match deed {
            Deed::Ready { link, client } => self.marked.ready(link, client),
            Deed::Unready { link, client } => self.marked.unready(link, client),
            Deed::TakeBack { link } => self.marked.take_back(link),
            Deed::BeginText { link, name } => self.states(link, name),
            Deed::BeginRun { link, name } => return self.runs(link, name),
            Deed::BeginPrep { link, name } => return self.prepares(link, name),
            Deed::BeginStep {
                link,
                purpose,
                wish,
            } => return self.steps(link, purpose, wish),
            Deed::BeginCapture { link, name } => return self.captures(link, name),
            Deed::BeginEnd { link, name } => return self.resets(link, name),
            Deed::BeginQuit { link } => return self.quits(link),
        }
        Ok(())
    }

    // A statement of its client's present session is to be written next, where it may.
    fn states(&mut self, link: LinkId, name: SessionName)
        ensures settles { SettlesSo self.old self.new }
        ensures moves { Moves self.old self.new }
    {
        let tables = &self.marked.tables;
        if may_begin(tables, link) && may_state(tables, name) {
            self.marked.begin_text(link, name);
        }
    }

    // An execute in its client's present session is, where its text is prepared there.
    fn runs(&mut self, link: LinkId, name: SessionName) -> Result<(), OutOfMemory>
        ensures settles { OnOk result (SettlesSo self.old self.new) }
        ensures moves { OnOk result (Moves self.old self.new) }
    {
        let tables = &self.marked.tables;
        if may_begin(tables, link) && may_state(tables, name) {
            self.marked.begin_run(link, name)
        } else {
            Ok(())
        }
    }

    // The preparation of its text is, where the link was told the place of that.
    fn prepares(&mut self, link: LinkId, name: SessionName) -> Result<(), OutOfMemory>
        ensures settles { OnOk result (SettlesSo self.old self.new) }
        ensures moves { OnOk result (Moves self.old self.new) }
    {
        let tables = &self.marked.tables;
        if may_begin(tables, link) && may_state(tables, name) {
            self.prepares_stated(link, name)
        } else {
            Ok(())
        }
    }

    fn prepares_stated(&mut self, link: LinkId, name: SessionName) -> Result<(), OutOfMemory>
        requires { MayState link name (tables self.old) }
        ensures settles { OnOk result (SettlesSo self.old self.new) }
        ensures moves { OnOk result (Moves self.old self.new) }
    {
        let tables = &self.marked.tables;
        let Some(kept) = text_of_work(tables, &self.texts, name.client) else {
            return Ok(());
        };
        if wants_prepared(self.alloc, tables, link, name, kept.place())? {
            self.marked.begin_prep(link, name, kept.text())
        } else {
            Ok(())
        }
    }

    fn steps(&mut self, link: LinkId, purpose: Purpose, wish: Wish) -> Result<(), OutOfMemory>
        ensures settles { OnOk result (SettlesSo self.old self.new) }
        ensures moves { OnOk result (Moves self.old self.new) }
    {
        if is_for(&purpose) && is_step(&wish) && may_begin(&self.marked.tables, link) {
            self.marked.begin_step(link, purpose, wish)
        } else {
            Ok(())
        }
    }

    fn captures(&mut self, link: LinkId, name: SessionName) -> Result<(), OutOfMemory>
        ensures settles { OnOk result (SettlesSo self.old self.new) }
        ensures moves { OnOk result (Moves self.old self.new) }
    {
        if may_begin(&self.marked.tables, link) {
            self.marked.begin_capture(link, name)
        } else {
            Ok(())
        }
    }

    fn resets(&mut self, link: LinkId, name: SessionName) -> Result<(), OutOfMemory>
        ensures settles { OnOk result (SettlesSo self.old self.new) }
        ensures moves { OnOk result (Moves self.old self.new) }
    {
        if may_begin(&self.marked.tables, link) {
            self.marked.begin_end(link, name)
        } else {
            Ok(())
        }
    }

    fn quits(&mut self, link: LinkId) -> Result<(), OutOfMemory>
        ensures settles { OnOk result (SettlesSo self.old self.new) }
        ensures moves { OnOk result (Moves self.old self.new) }
    {
        if may_begin(&self.marked.tables, link) {
            self.marked.begin_quit(link)
        } else {
            Ok(())
        }
    }
}
