// Scopes of the whole server.
ghost use Rattle.std.specs.Prelude.{◌≡◌, ◌+◌, ◌<◌, ◌^◌, not, nat_eq};
ghost use Rattle.std.specs.List.{prefix_len};
ghost use Rattle.session_vars.specs.Scopes.{is_server_scope, before_dot, names_server, deeper};

use sql_tokens::{Token, TokenKind, behind, bytes_of, inside, is_one_of, is_symbol};

static SERVER_SCOPES: [&[u8]; 3] = [b"GLOBAL", b"PERSIST", b"PERSIST_ONLY"];

fn is_server_scope(word: &[u8]) -> bool
    ensures { result ≡ is_server_scope word.now }
{
    is_one_of(word, &SERVER_SCOPES)
}

// How many bytes stand before the first `.`.
fn dotless_run(bytes: &[u8]) -> usize
    ensures { result ≡ prefix_len (λ b. not (nat_eq b 46)) bytes.now }
{
    bytes.iter().take_while(|b| **b != b'.').count()
}

// What stands before the first `.`.
fn before_dot(bytes: &[u8]) -> &[u8]
    ensures { result.now ≡ before_dot bytes.now }
{
    &bytes[..dotless_run(bytes)]
}

// The word GLOBAL, PERSIST or PERSIST_ONLY, or a system variable whose first part is one of them.
pub(crate) fn names_server(kind: TokenKind, bytes: &[u8]) -> bool
    ensures { result ≡ names_server kind bytes.now }
{
    match kind {
        TokenKind::Word => is_server_scope(bytes),
        TokenKind::Name => is_server_scope(inside(bytes)),
        TokenKind::SysVar => is_server_scope(before_dot(behind(bytes, 2))),
        _ => false,
    }
}

// How many brackets are open behind a token; one that closes nothing is passed over.
pub(crate) fn deeper(text: &[u8], token: &Token, depth: usize) -> usize
    requires { depth + 1 < 2 ^ 64 }
    ensures { result ≡ deeper text.now token.now depth }
{
    if is_symbol(text, token, b'(') {
        depth + 1
    } else if is_symbol(text, token, b')') {
        depth.saturating_sub(1)
    } else {
        depth
    }
}
