// What goes to a server as a question, by what its answer makes of the link.
ghost use Rattle.std.specs.Prelude.{◌≡◌};
ghost use Rattle.link_state.specs.Asks.{kind_of, marks, tag_of};

use mx_base::Tag;
use pin_classifier::Class;
use reply_track::ReplyKind;
use session_state::SessionName;

/// For whom a question is asked, and what for.
#[derive(Clone, Copy)]
pub enum Purpose {
    /// It is a client's statement. `key` is that of the text that a STMT_PREPARE or an execute names.
    Statement {
        name: SessionName,
        ordinal: u64,
        key: u64,
    },
    /// The text of a client's execute is prepared on the way to it.
    Prep {
        name: SessionName,
        ordinal: u64,
        key: u64,
    },
    /// A step in a client's session.
    Sync {
        name: SessionName,
    },
    /// A step in nobody's session.
    Own,
    /// A session that was left is ended.
    End {
        name: SessionName,
    },
    /// A session is asked for its insert id.
    Capture {
        name: SessionName,
    },
}

/// A command, by what its answer makes of a link.
#[derive(Drop)]
pub enum Form {
    /// A text of this class, an execute of one, or COM_INIT_DB, which has the class of a USE.
    Text(Class),
    /// COM_FIELD_LIST.
    Fields,
    /// A text of this class is prepared.
    Prepare(Class),
    /// The insert id is set to this one.
    SetId(u64),
    /// The insert id is asked for.
    ReadId,
    /// COM_RESET_CONNECTION.
    Reset,
}

/// A question on its way: what for, and by which command.
#[derive(Drop)]
pub struct Asking {
    pub purpose: Purpose,
    pub form: Form,
}

impl Form {
    /// What the command is answered by. Takes no memory.
    pub fn kind(&self) -> ReplyKind
        ensures { result ≡ kind_of self.now }
    {
        match self {
            Form::Fields => ReplyKind::Fields,
            Form::Prepare(_) => ReplyKind::Prepare,
            _ => ReplyKind::Command,
        }
    }

    /// Whether its text may set the insert id, or reads it. Takes no memory.
    pub fn marks(&self) -> bool
        ensures { result ≡ marks self.now }
    {
        match self {
            Form::Text(class) => class.marks_id,
            Form::Fields => false,
            Form::Prepare(class) => class.marks_id,
            Form::SetId(_) => true,
            Form::ReadId => true,
            Form::Reset => true,
        }
    }
}

impl Purpose {
    /// The tag of its bytes. Takes no memory.
    pub fn tag(self) -> Tag
        ensures { result ≡ tag_of self }
    {
        match self {
            Purpose::Statement { name, ordinal, .. } => Tag::For {
                client: name.client,
                ordinal,
            },
            Purpose::Prep { name, ordinal, .. } => Tag::Prep {
                client: name.client,
                ordinal,
            },
            Purpose::Sync { name } => Tag::Sync {
                client: name.client,
                hostgroup: name.hostgroup,
            },
            Purpose::Own => Tag::Own,
            Purpose::End { name } => Tag::End {
                client: name.client,
                hostgroup: name.hostgroup,
            },
            Purpose::Capture { name } => Tag::End {
                client: name.client,
                hostgroup: name.hostgroup,
            },
        }
    }
}
