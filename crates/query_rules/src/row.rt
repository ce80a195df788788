// The rows of the table of rules.
ghost use Rattle.std.specs.Prelude.{◌≡◌, IfOk};

use mx_base::{Bytes, Hostgroup, OutOfMemory};
use std::alloc::Global;

/// A row of the table of rules (ProxySQL documentation, "mysql_query_rules"), its fields under the names of the columns.
/// A condition that is absent fits all, and an effect that is absent changes nothing.
#[allow(non_snake_case)]
#[derive(Drop)]
pub struct RuleRow {
    /// Rules are tried in the order of this number, from 1 on. No two rows have the same.
    pub rule_id: u32,
    /// Whether the rule fires at all.
    pub active: bool,
    /// The client's user, byte for byte.
    pub username: Option<Bytes>,
    /// The client's schema, byte for byte.
    pub schemaname: Option<Bytes>,
    /// The flag at which the rule is tried.
    pub flagIN: u16,
    /// The hash of the received text's digest, as `query_digest::digest_hash` gives it.
    pub digest: Option<u64>,
    /// A pattern of `regex` on bytes, UTF-8 itself, that is looked for in the received text's digest.
    pub match_digest: Option<Bytes>,
    /// Such a pattern that is looked for in the text as it is rewritten so far.
    pub match_pattern: Option<Bytes>,
    /// Whether each pattern that is there has to find nothing.
    pub negate_match_pattern: bool,
    /// The flag for the rules behind this one.
    pub flagOUT: Option<u16>,
    /// A template of `regex` that takes the place of every match of `match_pattern`.
    pub replace_pattern: Option<Bytes>,
    /// Where the text goes.
    pub destination_hostgroup: Option<Hostgroup>,
    /// The flag with which the session's next text begins.
    pub next_query_flagIN: Option<u16>,
    /// Whether the session may share its connection behind this text.
    pub multiplex: Option<bool>,
    /// The text of an error that is answered in place of running the text. It ends the pass.
    pub error_msg: Option<Bytes>,
    /// The message of an OK that is answered in place of running the text. It ends the pass.
    pub OK_msg: Option<Bytes>,
    /// Whether the pass ends here.
    pub apply: bool,
}

type Text = Option<Bytes>;

fn copy(alloc: Global, field: &Text) -> Result<Text, OutOfMemory>
    ensures { IfOk result (λ copy. copy ≡ field.now) }
{
    match field {
        Some(bytes) => Ok(Some(Bytes::from_slice(alloc, bytes.as_slice())?)),
        None => Ok(None),
    }
}

fn copy_two(alloc: Global, first: &Text, second: &Text) -> Result<(Text, Text), OutOfMemory>
    ensures { IfOk result (λ copies. (copies.0 ≡ first.now) × (copies.1 ≡ second.now)) }
{
    let first = copy(alloc, first)?;
    let second = copy(alloc, second)?;
    Ok((first, second))
}

impl RuleRow {
    ghost use Rattle.query_rules.specs.Rows.{replaces_nothing};

    // What the row asks for.
    fn copy_wanted(&self, alloc: Global) -> Result<(Text, Text, Text, Text), OutOfMemory>
        ensures { IfOk result (λ texts. (texts.0 ≡ self.now.username) × (texts.1 ≡ self.now.schemaname)
            × (texts.2 ≡ self.now.match_digest) × (texts.3 ≡ self.now.match_pattern)) }
    {
        let (username, schemaname) = copy_two(alloc, &self.username, &self.schemaname)?;
        let (digest, pattern) = copy_two(alloc, &self.match_digest, &self.match_pattern)?;
        Ok((username, schemaname, digest, pattern))
    }

    // What the row writes and answers.
    fn copy_given(&self, alloc: Global) -> Result<(Text, Text, Text), OutOfMemory>
        ensures { IfOk result (λ texts. (texts.0 ≡ self.now.replace_pattern) × (texts.1 ≡ self.now.error_msg)
            × (texts.2 ≡ self.now.OK_msg)) }
    {
        let template = copy(alloc, &self.replace_pattern)?;
        let (error, ok) = copy_two(alloc, &self.error_msg, &self.OK_msg)?;
        Ok((template, error, ok))
    }

    /// A copy of the row.
    pub fn copy(&self, alloc: Global) -> Result<RuleRow, OutOfMemory>
        ensures { IfOk result (λ copy. copy ≡ self.now) }
    {
        let (username, schemaname, match_digest, match_pattern) = self.copy_wanted(alloc)?;
        let (replace_pattern, error_msg, ok_msg) = self.copy_given(alloc)?;
        Ok(RuleRow {
            username,
            schemaname,
            match_digest,
            match_pattern,
            error_msg,
            OK_msg: ok_msg,
            replace_pattern,
            rule_id: self.rule_id,
            active: self.active,
            flagIN: self.flagIN,
            digest: self.digest,
            negate_match_pattern: self.negate_match_pattern,
            flagOUT: self.flagOUT,
            destination_hostgroup: self.destination_hostgroup,
            next_query_flagIN: self.next_query_flagIN,
            multiplex: self.multiplex,
            apply: self.apply,
        })
    }

    /// Whether there is a template, but no match that it could take the place of.
    pub fn replaces_nothing(&self) -> bool
        ensures { result ≡ replaces_nothing self.now }
    {
        self.replace_pattern.is_some()
            && (self.match_pattern.is_none() || self.negate_match_pattern)
    }
}
