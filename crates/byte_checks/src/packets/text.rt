// What the texts of a case spell.
ghost use Rattle.std.specs.Prelude.{◌↔◌, IsTrue};
ghost use Rattle.handshake.specs.Spelling.{IsText};

/// Whether bytes are a text, which has no NUL.
pub fn is_text(bytes: &[u8]) -> bool
    ensures { IsTrue result ↔ IsText bytes.now }
{
    bytes.iter().all(|b| *b != 0)
}
