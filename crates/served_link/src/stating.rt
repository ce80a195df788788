// A client's statement is spelt, and begins with its first byte.
ghost use Rattle.std.specs.Prelude.{◌≡◌, IfOk, OnErr, OnOk};
ghost use Rattle.served_link.specs.States.{longer, runs, states};

use crate::numbers::LongNumbers;
use crate::row::Row;
use lent_link::Begins;
use link_state::{Asking, Form, Purpose};
use mx_base::{Bytes, OutOfMemory};
use session_state::SessionName;
use std::alloc::Global;

/// A statement that goes out: whose it is, its place among its client's messages, the key of the text that it prepares or executes, what a
/// rule says of sharing the link behind it, the sequence id with which its answer begins for the client, and the client's own number of
/// what it prepares.
#[derive(Clone, Copy)]
pub struct Stated {
    pub name: SessionName,
    pub ordinal: u64,
    pub key: u64,
    pub multiplex: Option<bool>,
    pub first: u8,
    pub number: u32,
}

impl Row {
    // A statement of this form is to be written next.
    fn state(&mut self, stated: Stated, form: Form, bytes: Bytes)
        ensures { self.new ≡ states stated form bytes self.old }
    {
        let purpose = Purpose::Statement {
            name: stated.name,
            ordinal: stated.ordinal,
            key: stated.key,
        };
        self.stand(
            purpose.tag(),
            bytes,
            Begins::Asks(Asking { purpose, form }),
            stated.first,
            stated.number,
        );
        self.multiplex = stated.multiplex;
    }

    /// A statement that is these packets is to be written next: a text, COM_INIT_DB, COM_FIELD_LIST or COM_STMT_PREPARE. Takes no memory.
    pub fn begin_text(&mut self, stated: Stated, form: Form, packets: Bytes)
        ensures { self.new ≡ states stated form packets self.old }
    {
        self.state(stated, form, packets);
    }

    // The numbers with long data, once an execute of this one begins.
    fn longer(
        &self,
        alloc: Global,
        number: u32,
        has_long: bool,
    ) -> Result<Option<LongNumbers>, OutOfMemory>
        ensures { IfOk result (λ all. all ≡ longer number has_long self.now.long) }
    {
        if has_long {
            Ok(Some(self.long.with(alloc, number)?))
        } else {
            Ok(None)
        }
    }

    /// An execute of the statement that has this number there is to be written next, as these packets; `has_long` says that long data go before it.
    /// OutOfMemory leaves all as it was.
    pub fn begin_run(
        &mut self,
        alloc: Global,
        stated: Stated,
        form: Form,
        there: u32,
        packets: Bytes,
        has_long: bool,
    ) -> Result<(), OutOfMemory>
        ensures ok { OnOk result (self.new ≡ runs stated form there packets has_long self.old) }
        ensures err { OnErr result (self.new ≡ self.old) }
    {
        let longer = self.longer(alloc, there, has_long)?;
        self.state(stated, form, packets);
        self.longer = longer;
        Ok(())
    }
}
