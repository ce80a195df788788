// Transcripts of logs.
use crate::files::answers::{Answering, answer_all};
use crate::files::words::text_of;
use check_lines::Fields;
use mx_base::{Address, Bytes, ClientNo, Hostgroup, LinkId, OutOfMemory, Port, ServerId, Tag};
use mx_wire::Entry;
use recording::transcript;

const ADDRESS: Address = Address {
    ip: [127, 0, 0, 1],
    port: 3306,
};

/// `transcript <entry>; <entry>; ..`: the transcript of a log of these entries.
pub(crate) fn transcript_of(fields: &mut Fields<'_>) {
    let text = fields.rest_text();
    let mut log = Vec::new(fields.answer.alloc());
    if !text.is_empty() {
        answer_all(fields, &mut log, text, "; ", "");
    }
    match transcript(fields.answer.alloc(), &log) {
        Ok(lines) => fields.answer.debug(text_of(&lines)),
        Err(OutOfMemory) => fields.answer.refused(),
    }
}

impl Answering for Vec<Entry> {
    fn answer(&mut self, fields: &mut Fields<'_>) {
        let entry = entry_of(fields);
        fields.answer.keep(self, entry);
    }
}

// `woke <link> <until>`, `accepted <link> <port>`, where 0 is the port for traffic, `opened <link> <server>`, `exec <link> 0`,
// `closed <link> 0`, or a write, `<tag> <link> <n> <bytes>`.
fn entry_of(fields: &mut Fields<'_>) -> Entry {
    let link = LinkId(fields.number());
    let n = fields.number();
    match fields.case.reader {
        "accepted" => Entry::Accepted {
            port: if n == 0 { Port::Traffic } else { Port::Admin },
            link,
            salt: [1; 20],
        },
        "opened" => Entry::Opened {
            server: ServerId(n),
            address: ADDRESS,
            link,
        },
        "exec" => Entry::Exec { link },
        "closed" => Entry::Closed { link },
        "woke" => Entry::Woke {
            until_ms: u64::from(n),
            now_ms: 0,
        },
        word => Entry::Wrote {
            link,
            tag: tag_of(word, n),
            bytes: Bytes::from_vec(fields.bytes()),
        },
    }
}

// The tag of a write, of the client 1 where it names one, with its ordinal or hostgroup.
fn tag_of(word: &str, n: u16) -> Tag {
    let client = ClientNo(1);
    let ordinal = u64::from(n);
    let hostgroup = Hostgroup(n);
    match word {
        "for" => Tag::For { client, ordinal },
        "prep" => Tag::Prep { client, ordinal },
        "mirror" => Tag::Mirror { client, ordinal },
        "sync" => Tag::Sync { client, hostgroup },
        "end" => Tag::End { client, hostgroup },
        "own" => Tag::Own,
        _ => Tag::Reply,
    }
}
