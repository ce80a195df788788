// Prepared statements.
use check_lines::{Answer, Fields};
use mx_base::Hostgroup;
use stmt_map::{AddFault, ClientStatements, LinkStatements, LongFault, Prepared, Statement};

// How many bytes of long data a statement may have here.
const MOST_LONG: u64 = 8;

/// `client <step>, <step>..`: a client's statements. `add <key> <hostgroup> <params>`, `find <number>`, `bind <number> <types>`,
/// `long <number> <parameter> <bytes>`, `use <number>`, `close <number>`, `fill <count>`, `clear`.
pub(crate) fn client(fields: &mut Fields<'_>) {
    let mut statements = ClientStatements::new(fields.answer.alloc());
    let steps = fields.rest_text();
    for step in steps.split(", ") {
        client_step(&mut fields.answer, &mut statements, step);
    }
}

// The next word of a step.
fn word<'a>(rest: &mut &'a str) -> &'a str {
    let whole: &'a str = rest;
    match whole.split_once(' ') {
        Some((first, behind)) => {
            *rest = behind;
            first
        }
        None => {
            *rest = "";
            whole
        }
    }
}

fn client_step(answer: &mut Answer, statements: &mut ClientStatements, step: &str) {
    let mut rest = step;
    match word(&mut rest) {
        "add" => add(answer, statements, rest),
        "find" => find(answer, statements, rest),
        "bind" => bind(answer, statements, rest),
        "long" => append_long(answer, statements, rest),
        "use" => {
            let number = answer.parsed(rest);
            statements.use_up(answer.alloc(), number);
        }
        "close" => {
            let number = answer.parsed(rest);
            push(
                answer,
                if statements.close(number) {
                    "closed"
                } else {
                    "unknown"
                },
            );
        }
        "fill" => fill(answer, statements, rest),
        "clear" => statements.clear(),
        _ => answer.bad(),
    }
}

// What one step answers, behind what others did.
fn push(answer: &mut Answer, text: &str) {
    answer.separate(0, ", ");
    answer.text(text);
}

fn add(answer: &mut Answer, statements: &mut ClientStatements, step: &str) {
    let mut rest = step;
    let key = answer.parsed(word(&mut rest));
    let hostgroup = Hostgroup(answer.parsed(word(&mut rest)));
    let params = answer.parsed(rest);
    let prepared = Prepared {
        key,
        hostgroup,
        multiplex: None,
        params,
    };
    answer.separate(0, ", ");
    match statements.add(answer.alloc(), prepared) {
        Ok(number) => answer.display(number),
        Err(AddFault::Full) => answer.text("full"),
        Err(AddFault::OutOfMemory) => answer.refused(),
    }
}

fn fill(answer: &mut Answer, statements: &mut ClientStatements, step: &str) {
    let count: u64 = answer.parsed(step);
    for key in 0..count {
        let prepared = Prepared {
            key,
            hostgroup: Hostgroup(0),
            multiplex: None,
            params: 0,
        };
        if statements.add(answer.alloc(), prepared).is_err() {
            return push(answer, "full");
        }
    }
}

fn find(answer: &mut Answer, statements: &ClientStatements, step: &str) {
    let number = answer.parsed(step);
    match statements.find(number) {
        Some(statement) => push_statement(answer, statement),
        None => push(answer, "unknown"),
    }
}

fn push_statement(answer: &mut Answer, statement: &Statement) {
    let Prepared {
        key,
        hostgroup,
        params,
        ..
    } = statement.prepared;
    push(answer, "key ");
    answer.display(key);
    answer.text(" hostgroup ");
    answer.display(hostgroup.0);
    answer.text(" params ");
    answer.display(params);
    if let Some(types) = &statement.types {
        answer.text(" types ");
        answer.digits(types.as_slice());
    }
    for part in statement.long.parts() {
        answer.text(" long ");
        answer.display(part.parameter);
        answer.text("=");
        answer.digits(part.bytes.as_slice());
    }
}

fn bind(answer: &mut Answer, statements: &mut ClientStatements, step: &str) {
    let mut rest = step;
    let number = answer.parsed(word(&mut rest));
    let types = answer.spelled(rest);
    let done = statements.bind(answer.alloc(), number, &types);
    answer.done(done);
}

fn append_long(answer: &mut Answer, statements: &mut ClientStatements, step: &str) {
    let mut rest = step;
    let number = answer.parsed(word(&mut rest));
    let parameter = answer.parsed(word(&mut rest));
    let bytes = answer.spelled(rest);
    match statements.append_long(answer.alloc(), number, parameter, &bytes, MOST_LONG) {
        Ok(()) => {}
        Err(LongFault::TooLong) => push(answer, "too long"),
        Err(LongFault::OutOfMemory) => answer.refused(),
    }
}

/// `link <step>, <step>..`: the statements of a link. `add <key> <number>`, `find <key>`, `oldest`, `remove <key>`, `fill <count>`
/// (keys and numbers from 1), `len`, `clear`. The oldest is shown as `<key>=<number>`.
pub(crate) fn link(fields: &mut Fields<'_>) {
    let mut statements = LinkStatements::new(fields.answer.alloc());
    let steps = fields.rest_text();
    for step in steps.split(", ") {
        link_step(&mut fields.answer, &mut statements, step);
    }
}

fn link_step(answer: &mut Answer, statements: &mut LinkStatements, step: &str) {
    let mut rest = step;
    match word(&mut rest) {
        "add" => {
            let key = answer.parsed(word(&mut rest));
            let number = answer.parsed(rest);
            let done = statements.add(key, number);
            answer.done(done);
        }
        "find" => {
            let key = answer.parsed(rest);
            push_number(answer, statements.find(key));
        }
        "oldest" => push_entry(answer, statements.oldest()),
        "remove" => {
            let key = answer.parsed(rest);
            push_number(answer, statements.remove(key));
        }
        "len" => {
            answer.separate(0, ", ");
            answer.display(statements.len());
        }
        "fill" => {
            let count: u32 = answer.parsed(rest);
            for key in 1..=count {
                let done = statements.add(key, key);
                answer.done(done);
            }
        }
        "clear" => statements.clear(),
        _ => answer.bad(),
    }
}

fn push_number(answer: &mut Answer, number: Option<u32>) {
    answer.separate(0, ", ");
    match number {
        Some(number) => answer.display(number),
        None => answer.text("unknown"),
    }
}

fn push_entry(answer: &mut Answer, entry: Option<(u32, u32)>) {
    let Some((key, number)) = entry else {
        return push(answer, "unknown");
    };
    answer.separate(0, ", ");
    answer.display(key);
    answer.text("=");
    answer.display(number);
}
