// What bytes that are read on links to servers make of the tables.
ghost use Rattle.std.specs.Prelude.{◌≡◌, IfOk, Ok, OnOk, if◌then◌else◌, nat_eq};
ghost use Rattle.std.specs.HashMap.{get};
ghost use Rattle.served_link.specs.Reads.{ReadsTo};
ghost use Rattle.core_tables.specs.Hearing.{IsHeard, answer_of, answered_for, at_desk, grown_by, replied_by, said_by, told_by, told_of, with_row};
ghost use Rattle.core_tables.specs.Parting.{IsRowChanged};
ghost use Rattle.core_tables.specs.Tables.{IsSame, tables_of};

use crate::client::Client;
use crate::said::Said;
use crate::server::Server;
use crate::tables::Tables;
use link_state::{Asking, Purpose};
use mx_base::{Hostgroup, LinkId, OutOfMemory};
use served_link::News;
use session_state::{ReplyEnd, SessionName};
use std::alloc::Global;
use std::collections::HashMap;

// What is said of what a read told.
fn said_by(news: &News, size: usize) -> Said
    ensures { result ≡ said_by news.now size }
{
    match news {
        News::LoggedIn => Said::LoggedIn,
        News::LoginFailed { shuns } => Said::LoginFailed { shuns: *shuns },
        News::Whole {
            asking,
            end,
            used,
            ..
        } => Said::Answered {
            purpose: asking.purpose,
            end: *end,
            behind: *used < size,
        },
        News::Bad { place } => Said::Bad { place: *place },
        _ => Said::Nothing,
    }
}

impl Client {
    // Its desk hears an answer.
    fn hears(
        &mut self,
        hostgroup: Hostgroup,
        asking: &Asking,
        multiplex: Option<bool>,
        end: &ReplyEnd,
        number: Option<u64>,
    )
        ensures { self.new
            ≡ at_desk (told_of (answer_of asking.now multiplex end.now number) hostgroup) self.old }
    {
        self.desk.heard(hostgroup, asking, multiplex, end, number);
    }

    // Its statement is answered, with these last bytes.
    fn answered(
        &mut self,
        alloc: Global,
        hostgroup: Hostgroup,
        asking: &Asking,
        multiplex: Option<bool>,
        end: &ReplyEnd,
        number: Option<u64>,
        made: &[u8],
    ) -> Result<(), OutOfMemory>
        ensures { OnOk result (self.new
            ≡ at_desk (replied_by (answer_of asking.now multiplex end.now number) hostgroup made.now) self.old) }
    {
        self.desk.heard(hostgroup, asking, multiplex, end, number);
        self.desk.seat.reply_piece(made)?;
        self.desk.moves(alloc, &asking.form, end.is_ok())?;
        self.desk.done();
        Ok(())
    }
}

// A piece of a client's reply comes.
fn grow_in(
    clients: &mut HashMap<u64, Client>,
    name: SessionName,
    made: &[u8],
) -> Result<(), OutOfMemory>
    ensures { OnOk result (IsRowChanged name.client.0 (at_desk (grown_by made.now))
        (get nat_eq clients.old) (get nat_eq clients.new)) }
{
    match clients.get_mut(&name.client.0) {
        Some(client) => client.desk.seat.reply_piece(made),
        None => Ok(()),
    }
}

// A client's desk hears an answer.
fn hear_in(
    clients: &mut HashMap<u64, Client>,
    name: SessionName,
    asking: &Asking,
    multiplex: Option<bool>,
    end: &ReplyEnd,
    number: Option<u64>,
)
    ensures { IsRowChanged name.client.0
        (at_desk (told_of (answer_of asking.now multiplex end.now number) name.hostgroup))
        (get nat_eq clients.old) (get nat_eq clients.new) }
{
    if let Some(client) = clients.get_mut(&name.client.0) {
        client.hears(name.hostgroup, asking, multiplex, end, number);
    }
}

// A client's statement is answered.
fn reply_in(
    clients: &mut HashMap<u64, Client>,
    alloc: Global,
    name: SessionName,
    asking: &Asking,
    multiplex: Option<bool>,
    end: &ReplyEnd,
    number: Option<u64>,
    made: &[u8],
) -> Result<(), OutOfMemory>
    ensures { OnOk result (IsRowChanged name.client.0
        (at_desk (replied_by (answer_of asking.now multiplex end.now number) name.hostgroup made.now))
        (get nat_eq clients.old) (get nat_eq clients.new)) }
{
    match clients.get_mut(&name.client.0) {
        Some(client) => client.answered(
            alloc,
            name.hostgroup,
            asking,
            multiplex,
            end,
            number,
            made,
        ),
        None => Ok(()),
    }
}

impl Server {
    // Its row reads bytes.
    fn read(&mut self, alloc: Global, bytes: &mut [u8], now: u64) -> Result<News, OutOfMemory>
        ensures reads { IfOk result (λ news. ReadsTo (Ok news) self.new.row bytes.new self.old.row bytes.old now) }
        ensures row { self.new ≡ with_row self.new.row self.old }
    {
        self.row.read(alloc, bytes, now)
    }
}

impl Tables {
    // An answer is whole, with these last bytes.
    #[tactic(auto, unfolding(crate::specs::Tables::tables_of))]
    fn whole(
        &mut self,
        asking: &Asking,
        multiplex: Option<bool>,
        end: &ReplyEnd,
        number: Option<u64>,
        made: &[u8],
    ) -> Result<(), OutOfMemory>
        ensures { OnOk result (IsSame (tables_of self.new) (answered_for asking.now.purpose
            (answer_of asking.now multiplex end.now number) made.now (tables_of self.old))) }
    {
        let clients = &mut self.clients;
        match asking.purpose {
            Purpose::Statement { name, .. } => {
                return reply_in(
                    clients, self.alloc, name, asking, multiplex, end, number, made,
                );
            }
            Purpose::Prep { name, .. } => hear_in(clients, name, asking, multiplex, end, number),
            Purpose::Sync { name } => hear_in(clients, name, asking, multiplex, end, number),
            Purpose::Own => {}
            Purpose::End { name } => hear_in(clients, name, asking, multiplex, end, number),
            Purpose::Capture { name } => hear_in(clients, name, asking, multiplex, end, number),
        }
        Ok(())
    }

    // The client whose session that is hears what was read.
    #[tactic(auto, unfolding(crate::specs::Tables::tables_of))]
    fn told(&mut self, news: &News, multiplex: Option<bool>, made: &[u8]) -> Result<(), OutOfMemory>
        ensures { OnOk result (IsSame (tables_of self.new)
            (told_by news.now multiplex made.now (tables_of self.old))) }
    {
        match news {
            News::Part { name } => grow_in(&mut self.clients, *name, made),
            News::Whole {
                asking,
                end,
                number,
                used,
            } => {
                let last = if *used < made.len() {
                    *used
                } else {
                    made.len()
                };
                self.whole(asking, multiplex, end, *number, &made[..last])
            }
            _ => Ok(()),
        }
    }

    // It hears nothing where it left that session.
    fn tell(
        &mut self,
        is_left: bool,
        news: &News,
        multiplex: Option<bool>,
        made: &[u8],
    ) -> Result<(), OutOfMemory>
        ensures { OnOk result (IsSame (tables_of self.new) (if is_left then tables_of self.old
            else told_by news.now multiplex made.now (tables_of self.old))) }
    {
        if is_left {
            Ok(())
        } else {
            self.told(news, multiplex, made)
        }
    }

    /// Bytes were read at this moment on a link to a server, where that is there. Behind OutOfMemory the tables are of no use any more.
    #[tactic(auto, unfolding(crate::specs::Tables::tables_of))]
    pub fn server_says(
        &mut self,
        link: LinkId,
        bytes: &mut [u8],
        now: u64,
    ) -> Result<Said, OutOfMemory>
        ensures { IfOk result (λ said.
            IsHeard link bytes.old now said (tables_of self.new) (tables_of self.old)) }
    {
        let size = bytes.len();
        let Some(server) = self.links.get_mut(&link.0) else {
            return Ok(Said::Nothing);
        };
        let news = server.read(self.alloc, bytes, now)?;
        let multiplex = server.row.multiplex;
        let is_left = server.row.left.is_some();
        self.tell(is_left, &news, multiplex, bytes)?;
        Ok(said_by(&news, size))
    }
}
