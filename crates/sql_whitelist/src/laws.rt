// A law of lists, for whoever stands on this crate.
ghost use Rattle.std.specs.Prelude.{◌≡◌, ◌↔◌, ℕ, false, List};
ghost use Rattle.command_parse.specs.Meaning.{Meaning};
ghost use Rattle.sql_whitelist.specs.Commands.{IsListOf, MaySend, is_refused};
ghost use Rattle.sql_whitelist.specs.Held.{holds};
ghost use Rattle.sql_whitelist.specs.declared.list.Whitelist.{Whitelist};
ghost use Rattle.sql_whitelist.specs.declared.row.ListRow.{ListRow};

/// Of a client that is held to a list exactly these commands aren't refused: those that run or prepare a text of whose digest
/// a row of the client's user and of its schema has the hash, and those that neither have a text nor ask for a table's columns.
pub fn listed_alone()
    ensures { (rows : List ListRow) (list : Whitelist) (user schema : List ℕ) (command : Meaning) → IsListOf rows list → (is_refused (holds list user schema) command ≡ false) ↔ MaySend rows user schema command }
{}
