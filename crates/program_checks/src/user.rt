// Who clients are.
ghost use Rattle.handshake.specs.Spelling.{IsText};

use crate::tables::found;

/// Who a client is: a user of the configuration, or one who isn't let in.
#[derive(Clone, Copy)]
pub enum User {
    /// u, who has no password.
    U,
    /// p, who has one.
    P,
    /// p with another password.
    Liar,
    /// x, who is in no configuration.
    Stranger,
}

const WORDS: [(&str, User); 4] = [
    ("u", User::U),
    ("p", User::P),
    ("liar", User::Liar),
    ("stranger", User::Stranger),
];

impl User {
    /// That of a word.
    pub fn of(word: &str) -> Option<User> {
        found(&WORDS, word)
    }

    /// The name.
    pub fn name(self) -> &'static [u8]
        ensures { IsText result.now }
    {
        match self {
            User::U => b"u",
            User::Stranger => b"x",
            _ => b"p",
        }
    }

    /// The password that it knows.
    pub fn password(self) -> &'static [u8] {
        match self {
            User::P => b"secret",
            User::Liar => b"guess",
            _ => b"",
        }
    }
}
