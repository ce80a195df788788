// Numbers of equal keys.
use check_lines::{Answer, Fields};
use mx_base::Bytes;
use number_table::{NumberTable, TakeFault};
use place_keys::place_key;
use session_vars::{SetShape, Settings, read_set};

// How many keys a table has here.
const MOST_KEYS: u32 = 3;

/// `number <step>, <step>..`: a table of up to three keys. `take <key>`, `leave <number>`, `key <number>`, `find <key>`, `len`.
pub(crate) fn number(fields: &mut Fields<'_>) {
    let mut table = NumberTable::new(fields.answer.alloc(), MOST_KEYS);
    let steps = fields.rest_text();
    for step in steps.split(", ") {
        let (name, rest) = step.split_once(' ').unwrap_or((step, ""));
        number_step(&mut fields.answer, &mut table, name, rest);
    }
}

fn number_step(answer: &mut Answer, table: &mut NumberTable<Bytes>, name: &str, rest: &str) {
    match name {
        "take" => {
            let key = Bytes::from_vec(answer.spelled(rest));
            take(answer, table, key);
        }
        "leave" => {
            let number = answer.parsed(rest);
            table.leave(number);
        }
        "key" => {
            let number = answer.parsed(rest);
            answer.separate(0, ", ");
            match table.key(number) {
                Some(key) => answer.bytes(key.as_slice()),
                None => answer.text("nobody"),
            }
        }
        "find" => {
            let key = Bytes::from_vec(answer.spelled(rest));
            answer.separate(0, ", ");
            match table.find(&key) {
                Some(number) => answer.display(number),
                None => answer.text("none"),
            }
        }
        "len" => {
            answer.separate(0, ", ");
            answer.display(table.len());
        }
        _ => answer.bad(),
    }
}

fn take(answer: &mut Answer, table: &mut NumberTable<Bytes>, key: Bytes) {
    answer.separate(0, ", ");
    match table.take(key) {
        Ok(number) => answer.display(number),
        Err(TakeFault::Full) => answer.text("full"),
        Err(TakeFault::OutOfMemory) => answer.refused(),
    }
}

/// `place <schema> <statement> | <schema> <statement>..`: the number of each place in one table, of sessions that made that SET alone.
pub(crate) fn place(fields: &mut Fields<'_>) {
    let mut table = NumberTable::new(fields.answer.alloc(), MOST_KEYS);
    let places = fields.rest_text();
    for place in places.split(" | ") {
        let (schema, statement) = place.split_once(' ').unwrap_or((place, ""));
        take_place(&mut fields.answer, &mut table, schema, statement);
    }
}

fn take_place(answer: &mut Answer, table: &mut NumberTable<Bytes>, schema: &str, statement: &str) {
    let Ok(settings) = settings_of(answer, statement) else {
        return answer.refused();
    };
    match place_key(answer.alloc(), schema.as_bytes(), &settings) {
        Ok(key) => take(answer, table, key),
        Err(_) => answer.refused(),
    }
}

fn settings_of(answer: &Answer, statement: &str) -> Result<Settings, mx_base::OutOfMemory> {
    let mut settings = Settings::defaults(answer.alloc())?;
    if let SetShape::Tracked(changes) = read_set(answer.alloc(), statement.as_bytes())? {
        settings.apply(changes.as_slice())?;
    }
    Ok(settings)
}
