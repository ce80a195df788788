// All commands of clients, and the table of them.
use crate::packets::show::spell_next;
use check_lines::{Answer, Fields};
use command_parse::{Command, CommandKind, CommandRow, Known, Replied};

/// `command <params> <bound> <payload>`: the command of a payload, where the statement that it names is known to have so many
/// parameters, whose types are bound or not; `command none none <payload>` where none is known.
pub fn parse(fields: &mut Fields<'_>) {
    let params = fields.text();
    let bound = fields.text();
    let payload = fields.rest_bytes();
    let known = known(&mut fields.answer, params, bound);
    match command_parse::parse_whole(&payload, known) {
        Ok(command) => show(&mut fields.answer, command),
        Err(fault) => fields.answer.debug(fault),
    }
}

// What is known of a statement.
fn known(answer: &mut Answer, params: &str, bound: &str) -> Option<Known> {
    if params == "none" {
        return None;
    }
    Some(Known {
        params: answer.parsed(params),
        bound: answer.parsed(bound),
    })
}

fn show(answer: &mut Answer, command: Command<'_>) {
    match command {
        Command::Quit => answer.text("quit"),
        Command::InitDb { schema } => named(answer, "init_db", schema),
        Command::Query { text } => named(answer, "query", text),
        Command::FieldList { rest } => named(answer, "field_list", rest),
        Command::Ping => answer.text("ping"),
        Command::Prepare { text } => named(answer, "prepare", text),
        Command::ResetConnection => answer.text("reset_connection"),
        Command::Refused(byte) => numbered(answer, "refused ", u32::from(byte)),
        statement => show_statement(answer, statement),
    }
}

// A command for a prepared statement.
fn show_statement(answer: &mut Answer, command: Command<'_>) {
    match command {
        Command::Execute {
            id,
            types,
            nulls,
            values,
        } => {
            numbered(answer, "execute ", id);
            spell_next(answer, nulls);
            match types {
                Some(types) => spell_next(answer, types),
                None => answer.text(" none"),
            }
            spell_next(answer, values);
        }
        Command::LongData {
            id,
            parameter,
            bytes,
        } => {
            numbered(answer, "long_data ", id);
            numbered(answer, " ", u32::from(parameter));
            spell_next(answer, bytes);
        }
        Command::Close { id } => numbered(answer, "close ", id),
        Command::ResetStmt { id } => numbered(answer, "reset ", id),
        Command::Fetch { id } => numbered(answer, "fetch ", id),
        _ => answer.bad(),
    }
}

// A name, and bytes.
fn named(answer: &mut Answer, name: &str, bytes: &[u8]) {
    answer.text(name);
    spell_next(answer, bytes);
}

// A name, and a number.
fn numbered(answer: &mut Answer, name: &str, number: u32) {
    answer.text(name);
    answer.display(number);
}

/// `command_row <byte>`: whether a server gets the commands that a byte begins, how its reply is read, and whether a client gets an
/// answer; `none` where it begins none.
pub fn row(fields: &mut Fields<'_>) {
    let byte = fields.number();
    match CommandKind::of(byte) {
        Some(kind) => show_row(&mut fields.answer, kind.row()),
        None => fields.answer.text("none"),
    }
}

fn show_row(answer: &mut Answer, row: CommandRow) {
    numbered(answer, "", u32::from(row.byte));
    answer.text(if row.to_server { " server" } else { " router" });
    answer.text(match row.reply {
        Some(Replied::Results) => " results",
        Some(Replied::Prepared) => " prepared",
        Some(Replied::Fields) => " fields",
        None => " none",
    });
    answer.text(if row.is_answered {
        " answered"
    } else {
        " silent"
    });
}
