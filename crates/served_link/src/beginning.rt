// What the router says for itself on a link is spelt, and begins with its first byte.
ghost use Rattle.std.specs.Prelude.{◌≡◌, OnErr, OnOk};
ghost use Rattle.link_state.specs.declared.wish.Wish.TheVariants.{Schema, Settings, SetId, Closes, Resets};
ghost use Rattle.served_link.specs.Begins.{asks, captures, ends, farewell, prepares, stands, step_begins};

use crate::row::Row;
use lent_link::Begins;
use link_state::{
    Asking, Form, Purpose, Wish, spell, spell_id, spell_numbered, spell_text, use_class,
};
use mx_base::{Bytes, OutOfMemory, Tag};
use pin_classifier::classify;
use reply_relay::OneCell;
use session_state::SessionName;
use std::alloc::Global;

impl Row {
    /// This is to be written next. The client gets the answer with ids from `first` on, and with its own number of what is prepared.
    pub(crate) fn stand(&mut self, tag: Tag, bytes: Bytes, next: Begins, first: u8, number: u32)
        ensures { self.new ≡ stands tag bytes next first number self.old }
    {
        self.link.begin(tag, bytes, next, first, number);
        self.longer = None;
        self.multiplex = None;
        self.cell = None;
    }

    // A question of the router's own.
    fn ask(&mut self, purpose: Purpose, form: Form, bytes: Bytes)
        ensures { self.new ≡ asks (record { purpose = purpose; form = form }) bytes self.old }
    {
        self.stand(
            purpose.tag(),
            bytes,
            Begins::Asks(Asking { purpose, form }),
            1,
            0,
        );
    }

    fn begin_schema(
        &mut self,
        alloc: Global,
        purpose: Purpose,
        schema: Bytes,
    ) -> Result<(), OutOfMemory>
        ensures ok { OnOk result (self.new ≡ step_begins purpose (Schema schema) self.old) }
        ensures err { OnErr result (self.new ≡ self.old) }
    {
        let bytes = spell_text(alloc, 2, schema.as_slice())?;
        self.ask(purpose, Form::Text(use_class(schema)), bytes);
        Ok(())
    }

    fn begin_settings(
        &mut self,
        alloc: Global,
        purpose: Purpose,
        text: &[u8],
    ) -> Result<(), OutOfMemory>
        ensures ok { OnOk result (self.new ≡ step_begins purpose (Settings text.now) self.old) }
        ensures err { OnErr result (self.new ≡ self.old) }
    {
        let class = classify(alloc, text)?;
        let bytes = spell_text(alloc, 3, text)?;
        self.ask(purpose, Form::Text(class), bytes);
        Ok(())
    }

    fn begin_id(&mut self, alloc: Global, purpose: Purpose, id: u64) -> Result<(), OutOfMemory>
        ensures ok { OnOk result (self.new ≡ step_begins purpose (SetId id) self.old) }
        ensures err { OnErr result (self.new ≡ self.old) }
    {
        let bytes = spell_id(alloc, id)?;
        self.ask(purpose, Form::SetId(id), bytes);
        Ok(())
    }

    fn begin_close(&mut self, alloc: Global, number: u32) -> Result<(), OutOfMemory>
        ensures ok { (purpose : Purpose) → OnOk result (self.new ≡ step_begins purpose (Closes number) self.old) }
        ensures err { OnErr result (self.new ≡ self.old) }
    {
        let bytes = spell_numbered(alloc, 0x19, number)?;
        self.stand(Tag::Own, bytes, Begins::Closes(number), 1, 0);
        Ok(())
    }

    fn begin_reset(&mut self, alloc: Global, number: u32) -> Result<(), OutOfMemory>
        ensures ok { (purpose : Purpose) → OnOk result (self.new ≡ step_begins purpose (Resets number) self.old) }
        ensures err { OnErr result (self.new ≡ self.old) }
    {
        let bytes = spell_numbered(alloc, 0x1a, number)?;
        self.stand(Tag::Own, bytes, Begins::Resets(number), 1, 0);
        Ok(())
    }

    /// A step on the way to a statement is to be written next, in its session or in nobody's, or a STMT_CLOSE or a STMT_RESET. Nothing is of
    /// the statement and of its preparation. OutOfMemory leaves all as it was.
    pub fn begin_step(
        &mut self,
        alloc: Global,
        purpose: Purpose,
        wish: Wish,
    ) -> Result<(), OutOfMemory>
        ensures ok { OnOk result (self.new ≡ step_begins purpose wish self.old) }
        ensures err { OnErr result (self.new ≡ self.old) }
    {
        match wish {
            Wish::Schema(schema) => self.begin_schema(alloc, purpose, schema),
            Wish::Settings(text) => self.begin_settings(alloc, purpose, text.as_slice()),
            Wish::SetId(id) => self.begin_id(alloc, purpose, id),
            Wish::Closes(number) => self.begin_close(alloc, number),
            Wish::Resets(number) => self.begin_reset(alloc, number),
            Wish::Prepare => Ok(()),
            Wish::Statement => Ok(()),
        }
    }

    /// The text of an execute is to be prepared next, which has this key. OutOfMemory leaves all as it was.
    pub fn begin_prep(
        &mut self,
        alloc: Global,
        name: SessionName,
        ordinal: u64,
        key: u64,
        text: &[u8],
    ) -> Result<(), OutOfMemory>
        ensures ok { OnOk result (self.new ≡ prepares name ordinal key text.now self.old) }
        ensures err { OnErr result (self.new ≡ self.old) }
    {
        let class = classify(alloc, text)?;
        let bytes = spell_text(alloc, 0x16, text)?;
        let purpose = Purpose::Prep { name, ordinal, key };
        self.ask(purpose, Form::Prepare(class), bytes);
        Ok(())
    }

    /// The session that it carries, and that was left, is to be ended next. OutOfMemory leaves all as it was.
    pub fn begin_end(&mut self, alloc: Global, name: SessionName) -> Result<(), OutOfMemory>
        ensures ok { OnOk result (self.new ≡ ends name self.old) }
        ensures err { OnErr result (self.new ≡ self.old) }
    {
        let bytes = spell(alloc, &[0x1f])?;
        self.ask(Purpose::End { name }, Form::Reset, bytes);
        Ok(())
    }

    /// The session that it carries is to be asked for its insert id next. OutOfMemory leaves all as it was.
    pub fn begin_capture(&mut self, alloc: Global, name: SessionName) -> Result<(), OutOfMemory>
        ensures ok { OnOk result (self.new ≡ captures name self.old) }
        ensures err { OnErr result (self.new ≡ self.old) }
    {
        let cell = OneCell::new(alloc)?;
        let bytes = spell_text(alloc, 3, b"SELECT LAST_INSERT_ID()")?;
        self.ask(Purpose::Capture { name }, Form::ReadId, bytes);
        self.cell = Some(cell);
        Ok(())
    }

    /// COM_QUIT is to be written next. OutOfMemory leaves all as it was.
    pub fn begin_quit(&mut self, alloc: Global) -> Result<(), OutOfMemory>
        ensures ok { OnOk result (self.new ≡ farewell self.old) }
        ensures err { OnErr result (self.new ≡ self.old) }
    {
        let bytes = spell(alloc, &[1])?;
        self.stand(Tag::Own, bytes, Begins::Quits, 1, 0);
        Ok(())
    }
}
