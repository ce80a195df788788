// The forms of statements.
use mx_base::Bytes;

/// What a statement is (MySQL Reference Manual, "SQL Statements"). Tracked SET statements and USE are told apart by the
/// statement's class.
#[derive(Clone, Copy)]
pub enum Form {
    CreateTable,
    CreateTemporary,
    InsertAt,
    Insert,
    Select,
    Count,
    Update,
    Delete,
    Begin,
    Commit,
    Rollback,
    Setting,
    SetVariable,
    Variable,
    SetId,
    Id,
    Lock,
    LockTables,
    UnlockTables,
    Warnings,
    Do,
}

/// What a token is in a form.
#[derive(Drop)]
pub enum Captured {
    /// Another token than the form has there.
    Differs,
    /// The word or the symbol that the form has there.
    Fixed,
    /// A value, None for a `?`, whose value is bound later.
    Value(Option<Bytes>),
}
