// What the two clients say in turns.
use crate::client::Client;
use crate::report::asks;
use std::io;

#[derive(Clone, Copy)]
enum Who {
    First,
    Second,
}

// Who says a statement, what it is answered, and what that shows.
type Turn = (Who, &'static str, &'static str, &'static str);

const TURNS: [Turn; 16] = [
    (Who::First, "DO 1", "OK", "the first client is served"),
    (
        Who::Second,
        "DO 1",
        "OK",
        "the second is served over the same connection",
    ),
    (Who::First, "USE a", "OK", "the first goes to a schema"),
    (
        Who::First,
        "CREATE TABLE t",
        "OK",
        "the first makes a table there",
    ),
    (
        Who::First,
        "INSERT INTO t (v) VALUES ('x')",
        "OK",
        "the first inserts a row",
    ),
    (
        Who::Second,
        "SELECT v FROM t WHERE id = 1",
        "error 1146",
        "the second stands in another schema",
    ),
    (
        Who::Second,
        "SELECT LAST_INSERT_ID()",
        "0",
        "the second has an insert id of its own",
    ),
    (
        Who::First,
        "SELECT LAST_INSERT_ID()",
        "1",
        "the first has that of its insert",
    ),
    (
        Who::First,
        "SELECT v FROM t WHERE id = 1",
        "x",
        "the first finds its row",
    ),
    (
        Who::First,
        "SET sql_mode = 'STRICT_TRANS_TABLES'",
        "OK",
        "the first sets a setting",
    ),
    (
        Who::Second,
        "SELECT @@sql_mode",
        "DEFAULT",
        "the second has the default of it",
    ),
    (
        Who::First,
        "SELECT @@sql_mode",
        "'STRICT_TRANS_TABLES'",
        "the first has what it set",
    ),
    (
        Who::Second,
        "USE a",
        "OK",
        "the second goes to the same schema",
    ),
    (
        Who::Second,
        "SELECT v FROM t WHERE id = 1",
        "x",
        "the second finds the row there",
    ),
    (Who::First, "BEGIN", "OK", "the first begins a transaction"),
    (
        Who::First,
        "INSERT INTO t (v) VALUES ('y')",
        "OK",
        "the first inserts another row in it",
    ),
];

/// The turns, one after the other.
pub fn take(rt: &HostRuntime, first: &mut Client, second: &mut Client) -> io::Result<()> {
    for (who, statement, due, shows) in &TURNS {
        match who {
            Who::First => asks(rt, first, statement, due, shows)?,
            Who::Second => asks(rt, second, statement, due, shows)?,
        }
    }
    Ok(())
}
