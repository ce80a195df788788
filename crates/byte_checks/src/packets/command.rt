// Commands of clients.
use crate::packets::show::spell_next;
use check_lines::{Answer, Fields};
use command_parse::{Command, Known};

/// `parse <params> <bound> <payload>`: the command of a payload, where the statement that it names is known to have so many
/// parameters, whose types are bound or not; `parse none none <payload>` where none is known.
pub fn parse(fields: &mut Fields<'_>) {
    let params = fields.text();
    let bound = fields.text();
    let payload = fields.rest_bytes();
    let known = known(&mut fields.answer, params, bound);
    match command_parse::parse(&payload, known) {
        Ok(command) => show(&mut fields.answer, command),
        Err(fault) => fields.answer.debug(fault),
    }
}

// A command, of those that are parsed so far.
fn show(answer: &mut Answer, command: Command<'_>) {
    match command {
        Command::Quit => answer.text("quit"),
        Command::Ping => answer.text("ping"),
        Command::Query { text } => named(answer, "query", text),
        Command::InitDb { schema } => named(answer, "init_db", schema),
        Command::FieldList { rest } => named(answer, "field_list", rest),
        Command::Refused(byte) => refused(answer, byte),
        _ => answer.bad(),
    }
}

// A name, and bytes.
fn named(answer: &mut Answer, name: &str, bytes: &[u8]) {
    answer.text(name);
    spell_next(answer, bytes);
}

// A command that isn't taken.
fn refused(answer: &mut Answer, byte: u8) {
    answer.text("refused ");
    answer.display(byte);
}

// What is known of a statement.
fn known(answer: &mut Answer, params: &str, bound: &str) -> Option<Known> {
    if params == "none" {
        return None;
    }
    Some(Known {
        params: answer.parsed(params),
        bound: answer.parsed(bound),
    })
}

/// `statement_of <payload>`: the statement that it names.
pub fn statement_of(fields: &mut Fields<'_>) {
    let payload = fields.rest_bytes();
    fields.answer.debug(command_parse::statement_of(&payload));
}

/// `has_no_reply <byte>`: whether nothing answers a command of this byte.
pub fn has_no_reply(fields: &mut Fields<'_>) {
    let byte = fields.number();
    fields.answer.debug(command_parse::has_no_reply(byte));
}
