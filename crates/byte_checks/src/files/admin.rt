// What administrators say, and what they are answered.
ghost use Rattle.mx_config.specs.Lawful.{IsLawful};

use crate::files::words::lines;
use crate::files::world::World;
use admin_port::{
    AdminCommand, Answer, Staged, StagedTable, answer_text, read_command, variables_of,
};
use check_lines::{Answer as Written, Fields};
use mx_base::Bytes;
use mx_config::{Config, read_config};
use reply_text::Table;

/// `admin <statement> | <statement> ..`: what each statement is answered, one after the other, where no rows are staged at first. The
/// running rows are those of the world.
pub(crate) fn admin(fields: &mut Fields<'_>) {
    let text = fields.rest_text();
    let answer = &mut fields.answer;
    let world = World::new(answer);
    let mut staged = Staged::new(answer.alloc());
    for statement in text.split(" | ") {
        answer.separate(0, " | ");
        say(answer, statement, &mut staged, &world);
    }
}

/// `admin_from <lines>`: the staged servers, the numbers of the staged rules, and the variables of a configuration.
pub(crate) fn admin_from(fields: &mut Fields<'_>) {
    let text = lines(fields);
    let answer = &mut fields.answer;
    match read_config(answer.alloc(), &text) {
        Ok(config) => put_config(answer, &config),
        Err(_) => answer.bad(),
    }
}

fn put_config(answer: &mut Written, config: &Config)
    requires { IsLawful config.now }
{
    let alloc = answer.alloc();
    let servers = config.servers.as_slice();
    let rules = config.rules.as_slice();
    let variables = match variables_of(alloc, &config.proxy) {
        Ok(variables) => variables,
        Err(_) => return answer.refused(),
    };
    let mut staged = match Staged::of(alloc, servers, rules) {
        Ok(staged) => staged,
        Err(_) => return answer.bad(),
    };
    let world = World::with_variables(answer, variables);
    say(answer, "SELECT * FROM mysql_servers", &mut staged, &world);
    answer.text(" | ");
    let numbers = "SELECT rule_id FROM mysql_query_rules";
    say(answer, numbers, &mut staged, &world);
    answer.text(" | ");
    say(answer, "SHOW VARIABLES", &mut staged, &world);
}

/// `admin_command <payload>`: what an administrator's message is.
pub(crate) fn admin_command(fields: &mut Fields<'_>) {
    let payload = fields.rest_bytes();
    let answer = &mut fields.answer;
    match read_command(&payload) {
        AdminCommand::Query(text) => {
            answer.text("query ");
            answer.bytes(text);
        }
        AdminCommand::Ping => answer.text("ping"),
        AdminCommand::Quit => answer.text("quit"),
        AdminCommand::Malformed => answer.text("malformed"),
        AdminCommand::Unknown => answer.text("unknown"),
    }
}

fn say(answer: &mut Written, statement: &str, staged: &mut Staged, world: &World) {
    let bytes = answer.spelled(statement);
    match answer_text(answer.alloc(), &bytes, staged, &world.running()) {
        Ok(said) => put(answer, &said),
        Err(_) => answer.refused(),
    }
}

fn put(answer: &mut Written, said: &Answer) {
    match said {
        Answer::Done => answer.text("OK"),
        Answer::Rows(table) => put_table(answer, table),
        Answer::Refused(refusal) => {
            answer.display(refusal.code());
            answer.text(" ");
            match refusal.text(answer.alloc()) {
                Ok(text) => put_bytes(answer, &text),
                Err(_) => answer.refused(),
            }
        }
        Answer::Load(StagedTable::Servers) => answer.text("LOAD servers"),
        Answer::Load(StagedTable::Rules) => answer.text("LOAD rules"),
        Answer::Shutdown => answer.text("SHUTDOWN"),
    }
}

fn put_bytes(answer: &mut Written, bytes: &Bytes) {
    match std::str::from_utf8(bytes.as_slice()) {
        Ok(text) => answer.text(text),
        Err(_) => answer.bytes(bytes.as_slice()),
    }
}

// The columns, and each row: `<column>,<column>: <cell>,<cell>; <cell>,<cell>`.
fn put_table(answer: &mut Written, table: &Table) {
    let start = answer.len();
    for column in &table.columns {
        answer.separate(start, ",");
        put_bytes(answer, column);
    }
    answer.text(":");
    let rows = answer.len();
    for row in &table.rows {
        answer.separate(rows, ";");
        put_row(answer, row);
    }
}

fn put_row(answer: &mut Written, row: &[Option<Bytes>]) {
    answer.text(" ");
    let start = answer.len();
    for cell in row {
        answer.separate(start, ",");
        match cell {
            Some(text) if text.as_slice().is_empty() => answer.text("''"),
            Some(text) => put_bytes(answer, text),
            None => answer.text("NULL"),
        }
    }
}
