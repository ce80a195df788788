//! What an administrator may say to the router, what it does to the tables that are staged, and what is answered.
#![tactic(auto)]

mod answer;
mod column;
mod command;
mod fault;
mod laws;
mod pair;
mod parts;
mod patterns;
mod payloads;
mod read;
mod row;
mod row_values;
mod rules;
mod running;
mod select;
mod servers;
mod sheet;
mod staged;
mod statement;
mod value;
mod variables;
mod words;

pub use answer::{Answer, Refusal, answer_statement, answer_text};
pub use command::{AdminCommand, read_command};
pub use fault::Fault;
pub use laws::{keys_stay, refused_leaves, runs_apart};
pub use pair::Pair;
pub use patterns::are_patterned;
pub use payloads::write_answer;
pub use read::read_statement;
pub use running::{ClientState, EventKind, EventRow, NamedRow, PoolRow, ProcessRow, Running};
pub use staged::Staged;
pub use statement::{
    Action, Change, Key, Picked, Query, ServerKey, ShownTable, StagedTable, Statement,
};
pub use value::Value;
pub use variables::variables_of;
