// Bytes that stand in many cases, under names.
use check_lines::{Answer, CaseFault};
use std::alloc::{AllocError, Global};

/// Where a name stands: in cases of recordings, in those of scripts, whose salts are others, or in both.
#[derive(Clone, Copy)]
pub enum Names {
    Both,
    Recorded,
    Scripted,
}

// Names with their hexadecimal digits, the longer ones first, as one's digits may stand in another's; and how a line feed is written.
const NAMES: [(&str, &str, Names); 33] = [
    (" | ", "\n", Names::Both),
    // The greeting to the first client of a recording. A server's is the same.
    (
        "{greeting}",
        "4d0000000a382e302e33302d6d7800010000000102030405060708000fa22d02000e001500000000000000000000090a0b0c0d0e0f1011121314006d7973716c5f6e61746976655f70617373776f726400",
        Names::Recorded,
    ),
    // The greetings to the first and the second client of scripts, with other salts.
    (
        "{greeting}",
        "4d0000000a382e302e33302d6d7800010000000101010165666768000fa22d02000e001500000000000000000000696a6b6c6d6e6f7071727374006d7973716c5f6e61746976655f70617373776f726400",
        Names::Scripted,
    ),
    (
        "{greeting_2}",
        "4d0000000a382e302e33302d6d7800020000000201010165666768000fa22d02000e001500000000000000000000696a6b6c6d6e6f7071727374006d7973716c5f6e61746976655f70617373776f726400",
        Names::Scripted,
    ),
    // The steps to a client that names no schema: COM_INIT_DB of the default one, and SET NAMES of utf8mb4_general_ci.
    (
        "{steps}",
        "1300000002696e666f726d6174696f6e5f736368656d612d00000003534554204e414d455320757466386d623420434f4c4c41544520757466386d62345f67656e6572616c5f6369",
        Names::Scripted,
    ),
    // The response of the user u, who has no password. It names the schema d.
    (
        "{login}",
        "3b0000010da20e00000000012d000000000000000000000000000000000000000000000075000064006d7973716c5f6e61746976655f70617373776f726400",
        Names::Recorded,
    ),
    // The response of the administrator, who has no password.
    (
        "{admin}",
        "3d00000105a20e00000000012d000000000000000000000000000000000000000000000061646d696e00006d7973716c5f6e61746976655f70617373776f726400",
        Names::Recorded,
    ),
    // What the router says to a server as the user u.
    (
        "{own_login}",
        "3900000105a20e00000000012d00000000000000000000000000000000000000000000007500006d7973716c5f6e61746976655f70617373776f726400",
        Names::Both,
    ),
    // The steps to a client in the schema d: COM_INIT_DB, and SET NAMES of utf8mb4_general_ci.
    (
        "{steps}",
        "0200000002642d00000003534554204e414d455320757466386d623420434f4c4c41544520757466386d62345f67656e6572616c5f6369",
        Names::Recorded,
    ),
    // A greeting behind the low half of its capabilities.
    (
        "{greeting_end}",
        "2d02000e001500000000000000000000090a0b0c0d0e0f1011121314006d7973716c5f6e61746976655f70617373776f726400",
        Names::Recorded,
    ),
    // Error 1064, of the server.
    (
        "{syntax}",
        "2d000001ff2804233432303030596f75206861766520616e206572726f7220696e20796f75722053514c2073796e746178",
        Names::Scripted,
    ),
    // Error 9103.
    (
        "{refused}",
        "22000001ff8f2323485930303053657276657220636f6e6e656374696f6e2072656675736564",
        Names::Both,
    ),
    // The question for an insert id.
    (
        "{last_id}",
        "180000000353454c454354204c4153545f494e534552545f49442829",
        Names::Both,
    ),
    // Error 1146, of the server.
    (
        "{no_table}",
        "20000001ff7a042334325330325461626c652027742720646f65736e2774206578697374",
        Names::Scripted,
    ),
    // Error 9101.
    (
        "{lost}",
        "1f000001ff8d2323485930303053657276657220636f6e6e656374696f6e206c6f7374",
        Names::Both,
    ),
    // Error 1040.
    (
        "{too_many}",
        "1d000000ff1004233038303034546f6f206d616e7920636f6e6e656374696f6e73",
        Names::Recorded,
    ),
    // Error 9109.
    (
        "{malformed}",
        "1a000001ff95232348593030304d616c666f726d656420636f6d6d616e64",
        Names::Scripted,
    ),
    // A response behind its capabilities, up to the name of the user.
    (
        "{login_middle}",
        "000000012d0000000000000000000000000000000000000000000000",
        Names::Recorded,
    ),
    // Error 1047.
    (
        "{unknown_command}",
        "18000001ff1704233038533031556e6b6e6f776e20636f6d6d616e64",
        Names::Both,
    ),
    // The name of the login method.
    (
        "{method}",
        "6d7973716c5f6e61746976655f70617373776f726400",
        Names::Both,
    ),
    // The salt of the first client.
    (
        "{salt}",
        "0102030405060708090a0b0c0d0e0f1011121314",
        Names::Recorded,
    ),
    // A greeting up to the number of the connection.
    (
        "{greeting_begin}",
        "4d0000000a382e302e33302d6d7800",
        Names::Recorded,
    ),
    // The last twelve bytes of each salt.
    ("{salt_end}", "090a0b0c0d0e0f1011121314", Names::Recorded),
    // The OK to a response.
    ("{welcome}", "0700000200000002000000", Names::Both),
    // The OK to a command, with no rows and no insert id.
    ("{ok}", "0700000100000002000000", Names::Both),
    // The same in a transaction.
    (
        "{in_transaction}",
        "0700000100000003000000",
        Names::Recorded,
    ),
    // The queries "BEGIN" and "COMMIT".
    ("{begin}", "0600000003424547494e", Names::Recorded),
    ("{commit}", "0700000003434f4d4d4954", Names::Recorded),
    // The query "DO 1".
    ("{do_1}", "0500000003444f2031", Names::Both),
    // EOFs with the sequence ids 3 to 5, outside of a transaction.
    ("{eof_3}", "05000003fe00000200", Names::Scripted),
    ("{eof_4}", "05000004fe00000200", Names::Scripted),
    ("{eof_5}", "05000005fe00000200", Names::Scripted),
    // The command PING.
    ("{ping}", "010000000e", Names::Recorded),
];

// Whether a name stands there.
fn stands(name: Names, there: Names) -> bool {
    match (name, there) {
        (Names::Recorded, Names::Scripted) => false,
        (Names::Scripted, Names::Recorded) => false,
        _ => true,
    }
}

fn renamed(
    alloc: Global,
    text: &str,
    names: Names,
    is_spelled: bool,
) -> Result<String, AllocError> {
    let mut renamed = String::from_str(alloc, text)?;
    for (name, digits, of) in &NAMES {
        if stands(*of, names) {
            let (from, to) = if is_spelled {
                (name, digits)
            } else {
                (digits, name)
            };
            renamed = renamed.as_str().replace(alloc, from, to)?;
        }
    }
    Ok(renamed)
}

/// The lines of a recording, with digits in place of names.
pub fn spelled(answer: &mut Answer, lines: &str) -> String {
    match renamed(answer.alloc(), lines, Names::Recorded, true) {
        Ok(lines) => lines,
        Err(_) => {
            answer.refused();
            String::new(answer.alloc())
        }
    }
}

/// An answer, with names in place of the digits that they stand for.
pub fn named(alloc: Global, answer: Answer, names: Names) -> Result<String, CaseFault> {
    match answer.finished() {
        Ok(text) => Ok(renamed(alloc, &text, names, false)?),
        Err(fault) => Err(fault),
    }
}
