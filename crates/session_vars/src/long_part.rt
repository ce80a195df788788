// Long data of a prepared statement.
use mx_base::Bytes;

/// The long data that a client sent for one parameter of a prepared statement (client/server protocol,
/// "COM_STMT_SEND_LONG_DATA"). Parameters count from 0.
#[derive(Drop)]
pub struct LongPart {
    pub parameter: u16,
    pub bytes: Bytes,
}
