// What is read on a link.
ghost use Rattle.std.specs.Prelude.{◌≡◌, IfOk, OnOk};
ghost use Rattle.server_side.specs.Hearing.{entered_of};
ghost use Rattle.link_state.specs.States.{answered_in};
ghost use Rattle.lent_link.specs.Hears.{expecting};
ghost use Rattle.served_link.specs.Hears.{answered, link_read, made_in, news_whole, number_read, part_news, seen, took_in};
ghost use Rattle.served_link.specs.Reads.{Enters, Hears, ReadsTo, shuns};

use crate::news::News;
use crate::row::Row;
use lent_link::Took;
use link_state::{Purpose, Stage};
use mx_base::OutOfMemory;
use server_side::{BackendFault, Heard};
use session_state::ReplyEnd;
use std::alloc::Global;

fn shuns(fault: &BackendFault) -> bool
    ensures { result ≡ shuns fault.now }
{
    match fault {
        BackendFault::BadBytes { .. } => true,
        _ => false,
    }
}

impl Row {
    // Bytes were read in the login.
    fn enter(&mut self, piece: &mut [u8]) -> Result<News, OutOfMemory>
        ensures { Enters result self.new (entered_of piece.old self.old.link.login) self.old }
    {
        match self.link.enter(piece) {
            Ok(Heard::LoggedIn) => Ok(News::LoggedIn),
            Ok(_) => Ok(News::Nothing),
            Err(BackendFault::OutOfMemory) => Err(OutOfMemory),
            Err(fault) => Ok(News::LoginFailed {
                shuns: shuns(&fault),
            }),
        }
    }

    // The link took a piece.
    fn take(&mut self, piece: &mut [u8]) -> Took
        ensures took { result ≡ took_in (expecting self.old.link).reading piece.old }
        ensures row { self.new ≡ record self.old { link = link_read piece.old self.old.link } }
        ensures made { piece.new ≡ made_in (expecting self.old.link).reading piece.old }
    {
        self.link.read(piece)
    }

    // These bytes are of the answer.
    fn see(&mut self, bytes: &[u8])
        ensures { self.new ≡ seen bytes.now self.old }
    {
        if let Some(cell) = &mut self.cell {
            cell.read(bytes);
        }
    }

    // The one number that was read of the answer.
    fn number(&self) -> Option<u64>
        ensures { result ≡ number_read self.now.cell }
    {
        match &self.cell {
            Some(cell) => cell.number(),
            None => None,
        }
    }

    // Whose statement is answered.
    fn part_news(&self) -> News
        ensures { result ≡ part_news self.now.link.state.stage }
    {
        match &self.link.state.stage {
            Stage::Answered(asking) => match asking.purpose {
                Purpose::Statement { name, .. } => News::Part { name },
                _ => News::Nothing,
            },
            _ => News::Nothing,
        }
    }

    // The answer ended so.
    fn answer(&mut self, alloc: Global, end: ReplyEnd, used: usize) -> Result<News, OutOfMemory>
        ensures news { IfOk result (λ news. news ≡ news_whole (answered_in self.old.link.state.stage) end (number_read self.old.cell) used) }
        ensures row { OnOk result (self.new ≡ answered end self.old) }
    {
        let number = self.number();
        self.cell = None;
        match self.link.state.hear(alloc, &end, number)? {
            Some(asking) => {
                self.note(&asking, &end, number);
                Ok(News::Whole {
                    asking,
                    end,
                    number,
                    used,
                })
            }
            None => Ok(News::ResetDone),
        }
    }

    // Bytes were read behind the login.
    fn hear(&mut self, alloc: Global, piece: &mut [u8]) -> Result<News, OutOfMemory>
        ensures { Hears result self.new piece.new self.old piece.old }
    {
        match self.take(piece) {
            Took::Part => {
                self.see(piece);
                Ok(self.part_news())
            }
            Took::Whole { used, end } => {
                self.see(&piece[..used]);
                self.answer(alloc, end, used)
            }
            Took::Bad { place } => Ok(News::Bad { place }),
        }
    }

    /// Bytes were read at this moment: in the login, or of the answer to what stands there, which become the client's. Behind OutOfMemory
    /// the link is of no use any more.
    pub fn read(&mut self, alloc: Global, piece: &mut [u8], now: u64) -> Result<News, OutOfMemory>
        ensures { ReadsTo result self.new piece.new self.old piece.old now }
    {
        self.used = now;
        if self.link.is_in() {
            self.hear(alloc, piece)
        } else {
            self.enter(piece)
        }
    }
}
