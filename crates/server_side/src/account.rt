// Who logs in.
use mx_base::Bytes;
use std::marker::Model;

/// Who logs in to a server, and how.
#[derive(Drop)]
pub struct Account {
    user: Bytes,
    password: Bytes,
    found_rows: bool,
}

impl Model for Account {
    ghost use Rattle.handshake.specs.Spelling.{IsText};
    ghost use Rattle.server_side.specs.Account.{Account};

    ghost Value = { Account };

    ghost view = { λ a. record { user = a.user; password = a.password; found_rows = a.found_rows } };

    ghost invariant = { λ a. IsText a.user };
}

impl Account {
    ghost use Rattle.std.specs.Prelude.{◌≡◌};
    ghost use Rattle.handshake.specs.Spelling.{IsText};
    ghost use Rattle.server_side.specs.Account.{Account};

    /// A user whose name has no NUL, and its password. With `found_rows` an UPDATE tells of the rows that it found
    /// (client/server protocol, "Capabilities Flags", FOUND_ROWS).
    pub fn new(user: Bytes, password: Bytes, found_rows: bool) -> Self
        requires { IsText user }
        ensures { result ≡ record { user = user; password = password; found_rows = found_rows } }
    {
        Account {
            user,
            password,
            found_rows,
        }
    }

    /// The user's name.
    pub fn user(&self) -> &[u8]
        ensures text { IsText result.now }
        ensures is { result.now ≡ self.now.user }
    {
        self.user.as_slice()
    }

    /// The password, empty where there is none.
    pub fn password(&self) -> &[u8]
        ensures { result.now ≡ self.now.password }
    {
        self.password.as_slice()
    }

    /// Whether an UPDATE tells of the rows that it found.
    pub fn found_rows(&self) -> bool
        ensures { result ≡ self.now.found_rows }
    {
        self.found_rows
    }
}
