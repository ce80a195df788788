// What an administrator may say.
use crate::pair::Pair;
use mx_base::{Bytes, Items};

/// The tables that are staged, and put in force by LOAD.
#[derive(Clone, Copy)]
pub enum StagedTable {
    Servers,
    Rules,
}

/// The tables that can be read.
#[derive(Clone, Copy)]
pub enum ShownTable {
    Servers,
    RuntimeServers,
    Rules,
    RuntimeRules,
    Digests,
    Pool,
    Processes,
    Totals,
    Events,
}

/// What is read of a table.
#[derive(Drop)]
pub enum Picked {
    /// All columns.
    All,
    /// How many rows there are.
    Count,
    /// The columns of these names.
    Columns(Items<Bytes>),
}

/// A SELECT of a table.
#[derive(Drop)]
pub struct Query {
    pub table: ShownTable,
    pub picked: Picked,
    /// The value that a column has to have.
    pub condition: Option<Pair>,
    /// How many rows are answered at most.
    pub limit: Option<u64>,
}

/// What tells servers apart, as it is typed.
#[derive(Drop)]
pub struct ServerKey {
    pub hostgroup: u64,
    pub host: Bytes,
    pub port: u64,
}

/// The rows of a staged table that are changed.
#[derive(Drop)]
pub enum Key {
    /// All of them, of either table.
    All,
    /// The rule of this number.
    Rule(u64),
    /// The server of this key.
    Server(ServerKey),
}

/// What is done to a staged table.
#[derive(Clone, Copy)]
pub enum Action {
    /// A new row. Its key is that of all rows.
    Insert,
    Update,
    /// It gives no values.
    Delete,
}

/// A statement on a staged table: the values that it gives to columns, and the rows to which it gives them.
#[derive(Drop)]
pub struct Change {
    pub table: StagedTable,
    pub pairs: Items<Pair>,
    pub key: Key,
}

/// What an administrator may say.
#[derive(Drop)]
pub enum Statement {
    Select(Query),
    Stage(Action, Change),
    /// LOAD .. TO RUNTIME.
    Load(StagedTable),
    ShowTables,
    /// All variables, or those whose names are LIKE this pattern.
    ShowVariables(Option<Bytes>),
    /// What the command lines ask for as they connect.
    VersionComment,
    /// What clients send of habit, and what changes nothing here.
    Accepted,
    Shutdown,
}
