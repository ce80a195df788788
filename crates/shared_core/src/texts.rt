// Texts as whom the router logs in.
ghost use Rattle.std.specs.Prelude.{IsTrue};
ghost use Rattle.handshake.specs.Spelling.{IsText};

// Whether bytes are a text, which has no NUL.
fn is_text(bytes: &[u8]) -> bool
    ensures { IsTrue result → IsText bytes.now }
{
    bytes.iter().all(|b| *b != 0)
}

/// A name, where it is a text, as each is with which a client logged in; else none.
pub(crate) fn text_of(name: &[u8]) -> &[u8]
    ensures { IsText result.now }
{
    if is_text(name) { name } else { &[] }
}
