// The server as one of which the laws hold.
ghost use Rattle.mem_rule.specs.Stored.{step, tables_out, tests};

use crate::MemServer;
use mem_rule::{stored_again, tame};
use mx_base::OutOfMemory;
use server_rule::{Cmd, ReplyList, Session, TameServer};

/// Its data are its tables, written as a list.
impl TameServer for MemServer {
    ghost stored = { tables_out };

    ghost tests = { tests };

    ghost step = { step };

    fn tame() {
        tame();
    }

    fn run(&mut self, session: &mut Session, cmd: &Cmd) -> Result<ReplyList, OutOfMemory> {
        let alloc = self.alloc();
        let reply = MemServer::run(self, alloc, session, cmd)?;
        stored_again();
        Ok(reply)
    }
}
