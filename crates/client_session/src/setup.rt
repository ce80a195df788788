// What sessions go by.
use mx_base::{Address, Bytes, Port, ServerId};
use std::marker::Model;

/// A server, and where it stands.
#[derive(Clone, Copy)]
pub struct ServerAt {
    pub server: ServerId,
    pub address: Address,
}

/// A user, who may log in.
#[derive(Drop)]
pub struct User {
    name: Bytes,
    password: Bytes,
}

impl Model for User {
    ghost use Rattle.handshake.specs.Spelling.{IsText};
    ghost use Rattle.client_session.specs.Setups.{User};

    ghost Value = { User };

    ghost view = { λ u. record { name = u.name; password = u.password } };

    ghost invariant = { λ u. IsText u.name };
}

impl User {
    ghost use Rattle.std.specs.Prelude.{◌≡◌};
    ghost use Rattle.handshake.specs.Spelling.{IsText};
    ghost use Rattle.client_session.specs.Setups.{User};

    /// A user whose name has no NUL.
    pub fn new(name: Bytes, password: Bytes) -> Self
        requires { IsText name }
        ensures { result ≡ record { name = name; password = password } }
    {
        User { name, password }
    }

    pub fn name(&self) -> &[u8]
        ensures text { IsText result.now }
        ensures is { result.now ≡ self.now.name }
    {
        self.name.as_slice()
    }

    pub fn password(&self) -> &[u8]
        ensures { result.now ≡ self.now.password }
    {
        self.password.as_slice()
    }
}

/// What sessions go by.
#[derive(Drop)]
pub struct Setup {
    version: Bytes,
    users: Vec<User>,
    admin: User,
    limit: u64,
    max_clients: u32,
    target: Option<ServerAt>,
}

impl Model for Setup {
    ghost use Rattle.client_session.specs.Setups.{Setup, IsSound};

    ghost Value = { Setup };

    ghost view = { λ s. record { version = s.version; users = s.users.items; admin = s.admin; limit = s.limit; max_clients = s.max_clients; target = s.target } };

    ghost invariant = { λ s. IsSound s.version s.limit };
}

impl Setup {
    ghost use Rattle.std.specs.Prelude.{◌≡◌, ◌≤◌, length, is_some};
    ghost use Rattle.handshake.specs.Spelling.{IsText};
    ghost use Rattle.client_session.specs.Setups.{Setup, has_server, most_message, users_at};

    /// The version that clients are told, at most 255 bytes without a NUL; who may log in at the port of clients, and who at that of
    /// administrators; the longest payload of a client's message, in bytes, 1 GiB at most; how many clients may be connected; and the server
    /// that queries go to, where one is configured.
    pub fn new(
        version: Bytes,
        users: Vec<User>,
        admin: User,
        limit: u64,
        max_clients: u32,
        target: Option<ServerAt>,
    ) -> Self
        requires text { IsText version }
        requires short { length version ≤ 255 }
        requires limit { limit ≤ most_message }
        ensures { result ≡ record { version = version; users = users.items; admin = admin; limit = limit; max_clients = max_clients; target = target } }
    {
        Setup {
            version,
            users,
            admin,
            limit,
            max_clients,
            target,
        }
    }

    /// The version that clients are told.
    pub fn version(&self) -> &[u8]
        ensures text { IsText result.now }
        ensures short { length result.now ≤ 255 }
        ensures is { result.now ≡ self.now.version }
    {
        self.version.as_slice()
    }

    /// Who may log in at a port.
    pub fn users_at(&self, port: Port) -> &[User]
        ensures { result.now ≡ users_at self.now port }
    {
        match port {
            Port::Traffic => &self.users,
            Port::Admin => std::slice::from_ref(&self.admin),
        }
    }

    /// The longest payload of a client's message, in bytes.
    pub fn limit(&self) -> u64
        ensures most { result ≤ most_message }
        ensures is { result ≡ self.now.limit }
    {
        self.limit
    }

    /// How many clients may be connected.
    pub fn max_clients(&self) -> u32
        ensures { result ≡ self.now.max_clients }
    {
        self.max_clients
    }

    /// The server that queries go to.
    pub fn target(&self) -> Option<ServerAt>
        ensures { result ≡ self.now.target }
    {
        self.target
    }

    /// Whether there is one.
    pub fn has_server(&self) -> bool
        ensures { result ≡ has_server self.now }
    {
        self.target.is_some()
    }
}
