// Replies, and how they end.
ghost use Rattle.std.specs.Prelude.{◌≡◌};
ghost use Rattle.reply_track.specs.Payloads.{ok_end, err_end, rows_end};

/// What a command is answered by (client/server protocol, "Command Phase").
#[derive(Clone, Copy, Debug)]
pub enum ReplyKind {
    /// Results: of COM_QUERY, COM_STMT_EXECUTE and all commands that are answered by an OK.
    Command,
    /// The answer to COM_STMT_PREPARE.
    Prepare,
    /// The column definitions that COM_FIELD_LIST asks for.
    Fields,
}

/// What the last result of a reply ends with.
#[derive(Clone, Copy, Debug)]
pub enum EndKind {
    Ok,
    Err,
    /// The EOF behind rows, or behind the definitions of a field list.
    Rows,
    Prepared,
}

/// How a reply ended: the fields of the OK, EOF or ERR that ends it, or of the answer to a prepare. A number that
/// isn't there is 0.
#[derive(Clone, Copy, Debug)]
pub struct ReplyEnd {
    pub kind: EndKind,
    /// The status flags; None exactly for `Err` and `Prepared`.
    pub flags: Option<u16>,
    pub warnings: u16,
    pub insert_id: u64,
    /// The error code.
    pub code: u16,
    /// The server's number of the prepared statement.
    pub server_number: u32,
    /// How many parameters the prepared statement has.
    pub params: u16,
}

/// How far a reply has come.
#[derive(Clone, Copy, Debug)]
pub enum Progress {
    /// The whole piece belongs to the reply, which goes on.
    More,
    /// The reply ends with the first `used` bytes of the piece.
    Done { used: usize, end: ReplyEnd },
    /// The byte at this place of the piece is the first behind which no reply goes on.
    Bad { at: usize },
}

/// The end by an OK ("OK_Packet").
pub(crate) fn ok_end(flags: u16, warnings: u16, insert_id: u64) -> ReplyEnd
    ensures { result ≡ ok_end flags warnings insert_id }
{
    ReplyEnd {
        kind: EndKind::Ok,
        flags: Some(flags),
        warnings,
        insert_id,
        code: 0,
        server_number: 0,
        params: 0,
    }
}

/// The end by an ERR ("ERR_Packet").
pub(crate) fn err_end(code: u16) -> ReplyEnd
    ensures { result ≡ err_end code }
{
    ReplyEnd {
        kind: EndKind::Err,
        flags: None,
        warnings: 0,
        insert_id: 0,
        code,
        server_number: 0,
        params: 0,
    }
}

/// The end by an EOF ("EOF_Packet").
pub(crate) fn rows_end(flags: u16, warnings: u16) -> ReplyEnd
    ensures { result ≡ rows_end flags warnings }
{
    ReplyEnd {
        kind: EndKind::Rows,
        flags: Some(flags),
        warnings,
        insert_id: 0,
        code: 0,
        server_number: 0,
        params: 0,
    }
}
