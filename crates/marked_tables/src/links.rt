// Links to servers are written on, read, given back and lost, and what stands next on them begins or is taken back.
ghost use Rattle.std.specs.Prelude.{◌≡◌, IfOk, OnOk};
ghost use Rattle.core_tables.specs.Beginning.{capture_begun, end_begun, next_back, quit_begun, step_begun, text_begun};
ghost use Rattle.core_tables.specs.Hearing.{IsHeard};
ghost use Rattle.core_tables.specs.Parting.{freed_in, is_done_in, lost_in};
ghost use Rattle.core_tables.specs.Tables.{IsSame, tables_of};
ghost use Rattle.core_tables.specs.Writing.{IsWritable, began_on, wrote_on};
ghost use Rattle.marked_tables.specs.Goes.{GoesOn};

use crate::marked::MarkedTables;
use crate::touching::{mark_asked, mark_carried, mark_client, mark_link};
use core_tables::Said;
use link_state::{Purpose, Wish};
use mx_base::{LinkId, OutOfMemory};
use session_state::SessionName;

impl MarkedTables {
    /// Bytes were read at this moment on a link to a server, where that is there.
    pub fn server_says(
        &mut self,
        link: LinkId,
        bytes: &mut [u8],
        now: u64,
    ) -> Result<Said, OutOfMemory>
        ensures is { IfOk result (λ said.
            IsHeard link bytes.old now said (tables_of self.new.tables) (tables_of self.old.tables)) }
        ensures goes { OnOk result (GoesOn self.old self.new) }
    {
        mark_asked(&self.tables, &mut self.changed, link);
        self.tables.server_says(link, bytes, now)
    }

    /// So many bytes of what the tables lend of a link to a server were written at this moment, at least one: with the first of a question
    /// that begins. What began is handed on. Takes no memory.
    pub fn wrote_on(&mut self, link: LinkId, n: usize, now: u64) -> Option<Purpose>
        requires { IsWritable link n (tables_of self.old.tables) }
        ensures began { result ≡ began_on link (tables_of self.old.tables) }
        ensures is { IsSame (tables_of self.new.tables)
            (wrote_on link n now (tables_of self.old.tables)) }
        ensures goes { GoesOn self.old self.new }
    {
        mark_asked(&self.tables, &mut self.changed, link);
        self.tables.wrote_on(link, n, now)
    }

    /// What stands next on a link is taken back: a statement to its client's desk, where it is that client's unsent work still. Takes no
    /// memory.
    pub fn take_back(&mut self, link: LinkId)
        ensures is { IsSame (tables_of self.new.tables) (next_back link (tables_of self.old.tables)) }
        ensures goes { GoesOn self.old self.new }
    {
        mark_asked(&self.tables, &mut self.changed, link);
        self.tables.take_back(link);
    }

    /// A client's statement is to be written next on a link: its form and its packets go there, where both stand at the desk. Takes no
    /// memory.
    pub fn begin_text(&mut self, link: LinkId, name: SessionName)
        ensures is { IsSame (tables_of self.new.tables)
            (text_begun link name (tables_of self.old.tables)) }
        ensures goes { GoesOn self.old self.new }
    {
        mark_link(&mut self.changed, link);
        mark_client(&self.tables, &mut self.changed, name.client);
        self.tables.begin_text(link, name);
    }

    /// A step in a session or in nobody's is to be written next on a link.
    pub fn begin_step(
        &mut self,
        link: LinkId,
        purpose: Purpose,
        wish: Wish,
    ) -> Result<(), OutOfMemory>
        ensures is { OnOk result (IsSame (tables_of self.new.tables)
            (step_begun link purpose wish (tables_of self.old.tables))) }
        ensures goes { OnOk result (GoesOn self.old self.new) }
    {
        mark_link(&mut self.changed, link);
        self.tables.begin_step(link, purpose, wish)
    }

    /// The question for a session's insert id is.
    pub fn begin_capture(&mut self, link: LinkId, name: SessionName) -> Result<(), OutOfMemory>
        ensures is { OnOk result (IsSame (tables_of self.new.tables)
            (capture_begun link name (tables_of self.old.tables))) }
        ensures goes { OnOk result (GoesOn self.old self.new) }
    {
        mark_link(&mut self.changed, link);
        self.tables.begin_capture(link, name)
    }

    /// The end of a session is.
    pub fn begin_end(&mut self, link: LinkId, name: SessionName) -> Result<(), OutOfMemory>
        ensures is { OnOk result (IsSame (tables_of self.new.tables)
            (end_begun link name (tables_of self.old.tables))) }
        ensures goes { OnOk result (GoesOn self.old self.new) }
    {
        mark_link(&mut self.changed, link);
        self.tables.begin_end(link, name)
    }

    /// The QUIT is.
    pub fn begin_quit(&mut self, link: LinkId) -> Result<(), OutOfMemory>
        ensures is { OnOk result (IsSame (tables_of self.new.tables)
            (quit_begun link (tables_of self.old.tables))) }
        ensures goes { OnOk result (GoesOn self.old self.new) }
    {
        mark_link(&mut self.changed, link);
        self.tables.begin_quit(link)
    }

    /// A link is given back, where it is done with the session that it carries; and whether it is. Takes no memory.
    pub fn free_if_done(&mut self, link: LinkId) -> bool
        ensures done { result ≡ is_done_in link (tables_of self.old.tables) }
        ensures is { IsSame (tables_of self.new.tables) (freed_in link (tables_of self.old.tables)) }
        ensures goes { GoesOn self.old self.new }
    {
        mark_carried(&self.tables, &mut self.changed, link);
        self.tables.free_if_done(link)
    }

    /// A link is lost, and with it the present session that it carries. Takes no memory.
    pub fn lose(&mut self, link: LinkId)
        ensures is { IsSame (tables_of self.new.tables) (lost_in link (tables_of self.old.tables)) }
        ensures goes { GoesOn self.old self.new }
    {
        mark_carried(&self.tables, &mut self.changed, link);
        self.tables.lose(link);
    }
}
