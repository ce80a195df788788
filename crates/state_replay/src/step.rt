// A step.
use mx_base::Bytes;

/// What goes to a link next.
#[derive(Drop, Debug)]
pub enum Step {
    /// COM_INIT_DB with this schema.
    InitDb(Bytes),
    /// COM_QUERY with this text: SET NAMES or SET SESSION.
    SetText(Bytes),
    /// COM_QUERY with `SET SESSION last_insert_id = n`.
    SetId(u64),
    /// COM_STMT_PREPARE with the statement's text.
    Prepare,
    /// The statement itself: no step is left.
    Statement,
}
