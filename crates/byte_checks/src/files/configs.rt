// Configurations.
use crate::files::words::{lines, text_of};
use check_lines::{Answer, Fields};
use hostgroups::ServerRow;
use mx_base::Bytes;
use mx_config::{Config, ConfigFault, ConfigRefusal, ProxyRow, UserRow, read_config};
use query_rules::RuleRow;
use sql_whitelist::ListRow;
use std::fmt::Debug;

// What stands around the number of a user, and of a rule.
const USER: [&str; 2] = ["[[users]]\nname = 'u", "'\npassword = 'p'\n"];

const RULE: [&str; 2] = ["[[rules]]\nrule_id = 1", "\n"];

// A `proxy` table without faults.
const PROXY: &str =
    "proxy = {listen='127.0.0.1:6033',admin_listen='127.0.0.1:6032',admin_user='a',admin_password='p'}\n";

// What is shown of a configuration.
#[derive(Clone, Copy)]
enum Shown {
    Whole,
    Rows,
    Rules,
    Lists,
}

/// `config <lines>`: the configuration, or its first fault.
pub(crate) fn config(fields: &mut Fields<'_>) {
    let text = lines(fields);
    show(&mut fields.answer, &text, Shown::Whole);
}

/// `rows <users> <servers> <connections>`: how many rows a configuration of so many users and servers has, each server with
/// so many connections, or its first fault.
pub(crate) fn rows(fields: &mut Fields<'_>) {
    let mut text = Answer::new(fields.answer.alloc());
    text.text(PROXY);
    put_numbered(&mut text, fields.number(), USER);
    put_servers(&mut text, fields.number(), fields.number());
    show_written(&mut fields.answer, text, Shown::Rows);
}

/// `rules <count>`: how many rules a configuration of so many has, or its first fault.
pub(crate) fn rules(fields: &mut Fields<'_>) {
    let mut text = Answer::new(fields.answer.alloc());
    text.text(PROXY);
    put_numbered(&mut text, 1, USER);
    put_numbered(&mut text, fields.number(), RULE);
    show_written(&mut fields.answer, text, Shown::Rules);
}

/// `lists <count> <digests>`: how many rows a whitelist of so many has, each with so many digests, or its first fault.
pub(crate) fn lists(fields: &mut Fields<'_>) {
    let mut text = Answer::new(fields.answer.alloc());
    text.text(PROXY);
    put_numbered(&mut text, 1, USER);
    put_lists(&mut text, fields.number(), fields.number());
    show_written(&mut fields.answer, text, Shown::Lists);
}

// Rows, each of which has its number between these texts.
fn put_numbered(text: &mut Answer, count: u16, around: [&str; 2]) {
    for n in 0..count {
        text.text(around[0]);
        text.display(n);
        text.text(around[1]);
    }
}

fn put_servers(text: &mut Answer, count: u16, connections: u16) {
    for n in 0..count {
        text.text("[[servers]]\nhostgroup = 1\nhost = '10.0.0.1'\nport = ");
        text.display(n);
        text.text("\nmax_connections = ");
        text.display(connections);
        text.text("\n");
    }
}

fn put_lists(text: &mut Answer, count: u16, digests: u16) {
    for _ in 0..count {
        text.text("[[whitelist]]\nuser = 'u'\nschema = 's'\ndigests = [");
        put_digests(text, digests);
        text.text("]\n");
    }
}

fn put_digests(text: &mut Answer, count: u16) {
    for _ in 0..count {
        text.text("'a9993e364706816a',");
    }
}

// A text is written as an answer is.
fn show_written(answer: &mut Answer, text: Answer, shown: Shown) {
    let text = answer.told(text);
    show(answer, text.as_bytes(), shown);
}

fn show(answer: &mut Answer, text: &[u8], shown: Shown) {
    match read_config(answer.alloc(), text) {
        Ok(config) => show_config(answer, &config, shown),
        Err(ConfigRefusal::Fault(fault)) => put_fault(answer, &fault),
        Err(ConfigRefusal::OutOfMemory) => answer.refused(),
    }
}

fn show_config(answer: &mut Answer, config: &Config, shown: Shown) {
    let users = config.users.as_slice();
    let servers = config.servers.as_slice();
    let rules = config.rules.as_slice();
    let lists = config.whitelist.as_slice();
    match shown {
        Shown::Whole => {
            put_proxy(answer, &config.proxy);
            put_users(answer, users);
            put_servers_of(answer, servers);
            put_rules_of(answer, rules);
            put_lists_of(answer, lists);
        }
        Shown::Rows => answer.debug((users.len(), servers.len())),
        Shown::Rules => answer.debug(rules.len()),
        Shown::Lists => answer.debug(lists.len()),
    }
}

// A fault's kind, table, row and key.
fn put_fault(answer: &mut Answer, fault: &ConfigFault) {
    answer.text("fault ");
    answer.display(fault.kind);
    answer.text(" ");
    answer.display(fault.table);
    answer.text(" ");
    answer.display(fault.row);
    answer.text(" ");
    answer.text(text_of(&fault.key));
}

fn put_servers_of(answer: &mut Answer, rows: &[ServerRow]) {
    for row in rows {
        answer.text("; ");
        answer.debug(*row);
    }
}

fn put_rules_of(answer: &mut Answer, rows: &[RuleRow]) {
    for row in rows {
        put_rule(answer, row);
    }
}

// A value by its Debug, and a blank.
fn put<D: Debug + Drop>(answer: &mut Answer, value: D) {
    answer.debug(value);
    answer.text(" ");
}

fn put_proxy(answer: &mut Answer, row: &ProxyRow) {
    put(answer, (row.listen, row.admin_listen));
    put(
        answer,
        (text_of(&row.admin_user), text_of(&row.admin_password)),
    );
    put(
        answer,
        (text_of(&row.server_version), text_of(&row.default_schema)),
    );
    put(answer, row.max_clients);
    answer.debug([row.max_packet, row.buffer_budget, row.wait_ms, row.idle_ms]);
}

fn put_users(answer: &mut Answer, rows: &[UserRow]) {
    for row in rows {
        answer.text("; user ");
        put(answer, (text_of(&row.name), text_of(&row.password)));
        answer.display(row.default_hostgroup.0);
        if row.whitelist {
            answer.text(" listed");
        }
    }
}

fn put_lists_of(answer: &mut Answer, rows: &[ListRow]) {
    for row in rows {
        answer.text("; list ");
        put(answer, (text_of(&row.user), text_of(&row.schema)));
        answer.debug(row.digests.as_slice());
    }
}

fn put_rule(answer: &mut Answer, row: &RuleRow) {
    answer.text("; rule ");
    put(
        answer,
        (row.rule_id, row.active, row.apply, row.negate_match_pattern),
    );
    put(
        answer,
        (field(&row.username), field(&row.schemaname), row.flagIN),
    );
    put(
        answer,
        (
            row.digest,
            field(&row.match_digest),
            field(&row.match_pattern),
        ),
    );
    put(answer, (row.flagOUT, row.next_query_flagIN));
    put(
        answer,
        (
            field(&row.replace_pattern),
            row.destination_hostgroup,
            row.multiplex,
        ),
    );
    answer.debug((field(&row.error_msg), field(&row.OK_msg)));
}

fn field(field: &Option<Bytes>) -> Option<&str> {
    field.as_ref().map(text_of)
}
