// What rules say of a session's texts.
use crate::rule_table::read_rows;
use crate::show::push_whole;
use check_lines::{Answer, Fields};
use mx_base::{Bytes, Hostgroup, OutOfMemory};
use query_rules::{Ask, Routed, Rules, Stop, is_pattern};

// The client's default.
const DEFAULT_HOSTGROUP: Hostgroup = Hostgroup(0);

/// `pattern <text>`: whether it is a pattern.
pub fn pattern(fields: &mut Fields<'_>) {
    let text = fields.rest_bytes();
    match is_pattern(fields.answer.alloc(), &text) {
        Ok(true) => fields.answer.text("accepted"),
        Ok(false) => fields.answer.text("refused"),
        Err(OutOfMemory) => fields.answer.refused(),
    }
}

/// `route <rules> => <text> | <text> ..`: what the rules say of each text, one after the other in a session of the user `app` and
/// the schema `shop`: the hostgroup and the text, and what else a rule has set. Rules may be missing.
pub fn route(fields: &mut Fields<'_>) {
    let case = fields.rest_text();
    follow_rules(&mut fields.answer, ("app", "shop"), case);
}

/// `as <user> <schema> <rules> => <text> ..`: the same in a session of this user and schema.
pub fn route_as(fields: &mut Fields<'_>) {
    let client = (fields.text(), fields.text());
    let case = fields.rest_text();
    follow_rules(&mut fields.answer, client, case);
}

fn follow_rules(answer: &mut Answer, client: (&str, &str), case: &str) {
    let (table, texts) = case.split_once("=> ").unwrap_or((case, ""));
    let rows = read_rows(answer, table.trim_end());
    match Rules::build(answer.alloc(), &rows) {
        Ok(rules) => follow(answer, &rules, client, texts),
        Err(fault) => {
            answer.text("refused: ");
            answer.debug(fault);
        }
    }
}

fn follow(answer: &mut Answer, rules: &Rules, client: (&str, &str), texts: &str) {
    let mut flag = 0;
    for text in texts.split(" | ") {
        answer.separate(0, " | ");
        let ask = ask_of(answer, client, flag, text);
        flag = push_answer(answer, rules, &ask);
    }
}

fn ask_of(answer: &mut Answer, client: (&str, &str), flag: u16, text: &str) -> Ask {
    Ask {
        user: Bytes::from_vec(answer.spelled(client.0)),
        schema: Bytes::from_vec(answer.spelled(client.1)),
        flag,
        text: Bytes::from_vec(answer.spelled(text)),
        default_hostgroup: DEFAULT_HOSTGROUP,
    }
}

// Appends what the rules say of a text, and gives the flag of the next one.
fn push_answer(answer: &mut Answer, rules: &Rules, ask: &Ask) -> u16 {
    match rules.route(ask) {
        Ok(routed) => {
            push_routed(answer, &routed);
            routed.next_flag.unwrap_or(ask.flag)
        }
        Err(OutOfMemory) => {
            answer.refused();
            0
        }
    }
}

fn push_routed(answer: &mut Answer, routed: &Routed) {
    answer.display(routed.hostgroup.0);
    answer.text(" ");
    push_quoted(answer, &routed.text);
    if let Some(flag) = routed.next_flag {
        answer.text(", next flag ");
        answer.display(flag);
    }
    if let Some(multiplex) = routed.multiplex {
        answer.text(", multiplex ");
        answer.display(multiplex);
    }
    if let Some(stop) = &routed.stop {
        push_stop(answer, stop);
    }
}

fn push_stop(answer: &mut Answer, stop: &Stop) {
    let (word, message) = match stop {
        Stop::Error(message) => (", error ", message),
        Stop::Ok(message) => (", OK ", message),
    };
    answer.text(word);
    push_quoted(answer, message);
}

fn push_quoted(answer: &mut Answer, bytes: &Bytes) {
    answer.text("\"");
    push_whole(answer, bytes.as_slice());
    answer.text("\"");
}
