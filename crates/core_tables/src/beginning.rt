// What stands next on links to servers.
ghost use Rattle.std.specs.Prelude.{◌≡◌, OnOk};
ghost use Rattle.handshake.specs.Spelling.{IsText};
ghost use Rattle.served_link.specs.Begins.{captures, ends, farewell, step_begins};
ghost use Rattle.core_tables.specs.Beginning.{capture_begun, end_begun, quit_begun, step_begun, with_row};
ghost use Rattle.core_tables.specs.Tables.{IsSame, tables_of};
ghost use Rattle.core_tables.specs.Writing.{opened};

use crate::server::Server;
use crate::tables::Tables;
use link_state::{Purpose, Wish};
use mx_base::{LinkId, OutOfMemory};
use served_link::{Opening, Row};
use session_state::SessionName;
use std::alloc::Global;

impl Server {
    fn begin_step(&mut self, alloc: Global, purpose: Purpose, wish: Wish) -> Result<(), OutOfMemory>
        ensures { OnOk result (self.new ≡ with_row (step_begins purpose wish) self.old) }
    {
        self.row.begin_step(alloc, purpose, wish)
    }

    fn begin_capture(&mut self, alloc: Global, name: SessionName) -> Result<(), OutOfMemory>
        ensures { OnOk result (self.new ≡ with_row (captures name) self.old) }
    {
        self.row.begin_capture(alloc, name)
    }

    fn begin_end(&mut self, alloc: Global, name: SessionName) -> Result<(), OutOfMemory>
        ensures { OnOk result (self.new ≡ with_row (ends name) self.old) }
    {
        self.row.begin_end(alloc, name)
    }

    fn begin_quit(&mut self, alloc: Global) -> Result<(), OutOfMemory>
        ensures { OnOk result (self.new ≡ with_row farewell self.old) }
    {
        self.row.begin_quit(alloc)
    }
}

impl Tables {
    /// A step in a session or in nobody's is to be written next on a link.
    #[tactic(auto, unfolding(crate::specs::Tables::tables_of))]
    pub fn begin_step(
        &mut self,
        link: LinkId,
        purpose: Purpose,
        wish: Wish,
    ) -> Result<(), OutOfMemory>
        ensures { OnOk result (IsSame (tables_of self.new) (step_begun link purpose wish (tables_of self.old))) }
    {
        match self.links.get_mut(&link.0) {
            Some(server) => server.begin_step(self.alloc, purpose, wish),
            None => Ok(()),
        }
    }

    /// The question for a session's insert id is.
    #[tactic(auto, unfolding(crate::specs::Tables::tables_of))]
    pub fn begin_capture(&mut self, link: LinkId, name: SessionName) -> Result<(), OutOfMemory>
        ensures { OnOk result (IsSame (tables_of self.new) (capture_begun link name (tables_of self.old))) }
    {
        match self.links.get_mut(&link.0) {
            Some(server) => server.begin_capture(self.alloc, name),
            None => Ok(()),
        }
    }

    /// The end of a session is.
    #[tactic(auto, unfolding(crate::specs::Tables::tables_of))]
    pub fn begin_end(&mut self, link: LinkId, name: SessionName) -> Result<(), OutOfMemory>
        ensures { OnOk result (IsSame (tables_of self.new) (end_begun link name (tables_of self.old))) }
    {
        match self.links.get_mut(&link.0) {
            Some(server) => server.begin_end(self.alloc, name),
            None => Ok(()),
        }
    }

    /// The QUIT is.
    #[tactic(auto, unfolding(crate::specs::Tables::tables_of))]
    pub fn begin_quit(&mut self, link: LinkId) -> Result<(), OutOfMemory>
        ensures { OnOk result (IsSame (tables_of self.new) (quit_begun link (tables_of self.old))) }
    {
        match self.links.get_mut(&link.0) {
            Some(server) => server.begin_quit(self.alloc),
            None => Ok(()),
        }
    }

    /// A link to a server was opened at this moment, on which the router logs in so. The user's name has no NUL.
    #[tactic(auto, unfolding(crate::specs::Tables::tables_of))]
    pub fn open(
        &mut self,
        link: LinkId,
        slot: u32,
        opening: Opening,
        user: &[u8],
        password: &[u8],
        found_rows: bool,
        now: u64,
    ) -> Result<(), OutOfMemory>
        requires { IsText user.now }
        ensures { OnOk result (IsSame (tables_of self.new)
            (opened link slot opening (record { user = user.now; password = password.now; found_rows = found_rows }) now (tables_of self.old))) }
    {
        let row = Row::new(self.alloc, opening, user, password, found_rows, now)?;
        let server = Server {
            row,
            slot,
            spot: None,
        };
        self.links.insert(link.0, server)?;
        Ok(())
    }
}
