// How a reply ended.
ghost use Rattle.std.specs.Prelude.{◌≡◌};
ghost use Rattle.session_state.specs.Endings.{brings_id, is_err, is_ok, shows_autocommit, shows_neither, shows_transaction, warns};

/// What ends a reply.
#[derive(Clone, Copy, PartialEq, Eq)]
pub enum EndKind {
    /// An OK.
    Ok,
    /// An ERR.
    Err,
    /// The EOF of a result set or of column definitions.
    Rows,
    /// It is the answer to a STMT_PREPARE, and no ERR.
    Prepared,
}

/// How a reply ended, as its last result says (client/server protocol, "OK_Packet", "ERR_Packet", "EOF_Packet",
/// "COM_STMT_PREPARE Response"). A number that isn't there is 0.
#[derive(Clone, Copy)]
pub struct ReplyEnd {
    pub kind: EndKind,
    /// The status flags of the OK or EOF; None exactly for `Err` and `Prepared`.
    pub flags: Option<u16>,
    pub warnings: u16,
    /// The insert id of an OK.
    pub insert_id: u64,
    /// The code of an ERR.
    pub code: u16,
    /// The number that the server gave to what it prepared.
    pub server_number: u32,
    /// How many parameters the prepared statement has.
    pub params: u16,
}

impl ReplyEnd {
    pub fn is_ok(&self) -> bool
        ensures { result ≡ is_ok self.now }
    {
        self.kind == EndKind::Ok
    }

    pub fn is_err(&self) -> bool
        ensures { result ≡ is_err self.now }
    {
        self.kind == EndKind::Err
    }

    /// Whether a transaction is open, where the reply says it (SERVER_STATUS_IN_TRANS).
    pub fn shows_transaction(&self) -> Option<bool>
        ensures { result ≡ shows_transaction self.now }
    {
        match self.flags {
            None => None,
            Some(flags) => Some(flags % 2 == 1),
        }
    }

    /// Whether autocommit is on, where the reply says it (SERVER_STATUS_AUTOCOMMIT).
    pub fn shows_autocommit(&self) -> Option<bool>
        ensures { result ≡ shows_autocommit self.now }
    {
        match self.flags {
            None => None,
            Some(flags) => Some(flags / 2 % 2 == 1),
        }
    }

    /// Whether it has status flags, and they show neither a transaction nor autocommit.
    pub fn shows_neither(&self) -> bool
        ensures { result ≡ shows_neither self.now }
    {
        match self.flags {
            None => false,
            Some(flags) => flags % 2 != 1 && flags / 2 % 2 != 1,
        }
    }

    /// Whether it leaves diagnostics: it is an ERR, or tells of warnings.
    pub fn warns(&self) -> bool
        ensures { result ≡ warns self.now }
    {
        self.is_err() || self.warnings > 0
    }

    /// Whether it brings an insert id, or may have: it is an ERR, or an OK that shows one other than 0.
    pub fn brings_id(&self) -> bool
        ensures { result ≡ brings_id self.now }
    {
        self.is_err() || (self.is_ok() && self.insert_id > 0)
    }
}
