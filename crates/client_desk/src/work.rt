// A client's statement in work.
ghost use Rattle.std.specs.Prelude.{◌≡◌};
ghost use Rattle.client_desk.specs.Works.{formless, given_back, gone_out, outlasts, packets_in, wanted_of, without_packets};

use client_seat::Args;
use link_state::{Command, Form, Wanted};
use mx_base::{Bytes, Hostgroup};

/// What a statement has that is to be written.
#[derive(Drop)]
pub enum Body {
    /// A text, the choice of a schema, the question for a table's columns or the preparation of a text, in packets.
    Packets(Bytes),
    /// The arguments of an execute.
    Run(Args),
    /// It stands on a link.
    Away,
}

/// The one statement of a client that became due and isn't answered: its place among the client's messages, its hostgroup, and when it
/// became due; whether its session was unpinned then; what a rule says of sharing the link, and the key of the text that it prepares or
/// executes; what kind of statement it is, and whether it marks the insert id; its class, until that goes to a link with it; its body, and
/// whether it went out.
#[derive(Drop)]
pub struct Work {
    pub ordinal: u64,
    pub hostgroup: Hostgroup,
    pub since_ms: u64,
    pub anew: bool,
    pub multiplex: Option<bool>,
    pub key: u64,
    pub command: Command,
    pub marks: bool,
    pub form: Option<Form>,
    pub body: Body,
    pub sent: bool,
}

impl Work {
    /// Its class is taken out, with which it goes to a link. Takes no memory.
    pub fn take_form(&mut self) -> Option<Form>
        ensures form { result ≡ self.old.form }
        ensures left { self.new ≡ formless self.old }
    {
        std::mem::replace(&mut self.form, None)
    }

    /// Its packets are taken out, where they stand here: they go to a link. Takes no memory.
    pub fn take_packets(&mut self) -> Option<Bytes>
        ensures packets { result ≡ packets_in self.old.body }
        ensures left { self.new ≡ without_packets self.old }
    {
        match std::mem::replace(&mut self.body, Body::Away) {
            Body::Packets(bytes) => Some(bytes),
            other => {
                self.body = other;
                None
            }
        }
    }

    /// What went to a link of which no byte was written comes back. Takes no memory.
    pub fn give_back(&mut self, form: Form, packets: Option<Bytes>)
        ensures { self.new ≡ given_back form packets self.old }
    {
        self.form = Some(form);
        if let Some(bytes) = packets {
            self.body = Body::Packets(bytes);
        }
    }

    // Its first byte was written.
    pub(crate) fn go_out(&mut self)
        ensures { self.new ≡ gone_out self.old }
    {
        self.sent = true;
        self.form = None;
        self.body = Body::Away;
    }

    /// What a link is to know of it, whose session has this insert id. Takes no memory.
    pub fn wanted(&self, id: Option<u64>) -> Wanted
        ensures { result ≡ wanted_of id self.now }
    {
        Wanted {
            command: self.command,
            key: self.key,
            marks: self.marks,
            id,
        }
    }
}

/// Whether a reset may not take back what a statement of this form does. Takes no memory.
pub fn outlasts(form: &Form) -> bool
    ensures { result ≡ outlasts form.now }
{
    match form {
        Form::Text(class) => class.outlasts_reset,
        _ => false,
    }
}
