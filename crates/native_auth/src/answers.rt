// What a client answers.

/// What a client answers to a salt (MySQL client/server protocol, "Native Authentication").
#[derive(Clone, Copy)]
pub enum Answer {
    /// No bytes, for an empty password.
    Empty,
    /// SHA1(password) xor SHA1(salt ++ SHA1(SHA1(password))).
    Bytes([u8; 20]),
}
