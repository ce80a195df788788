// A rule: its row, with its patterns compiled.
ghost use Rattle.std.specs.Prelude.{◌≡◌, IfOk, OnOk, IfErr};
ghost use Rattle.query_rules.specs.Building.{IsFieldRead, IsCompiled, IsSound, IsFaultOfNew};
ghost use Rattle.query_rules.specs.Conditions.{fits_name, admits, fits_digest, fits_match_digest, fits_match_pattern, fires};
ghost use Rattle.query_rules.specs.Effects.{rewritten, answer_of, after, is_last, sets_flag};

use crate::pass::Pass;
use crate::pattern::{compile_field, finds, replaced};
use crate::received::Received;
use crate::{Ask, RuleFault, RuleRow, Stop};
use mx_base::{Bytes, OutOfMemory};
use regex::bytes::Regex;
use std::alloc::Global;

/// A rule: its row, with its patterns compiled.
#[derive(Drop)]
pub struct Rule {
    pub(crate) row: RuleRow,
    pub(crate) match_digest: Option<Regex>,
    pub(crate) match_pattern: Option<Regex>,
}

fn copy(alloc: Global, bytes: &Bytes) -> Result<Bytes, OutOfMemory>
    ensures { IfOk result (λ copy. copy ≡ bytes.now) }
{
    Bytes::from_slice(alloc, bytes.as_slice())
}

// Whether a client's name is the one that a rule asks for, if it asks for one.
fn fits_name(wanted: &Option<Bytes>, name: &Bytes) -> bool
    ensures { result ≡ fits_name wanted.now name.now }
{
    match wanted {
        Some(wanted) => wanted == name,
        None => true,
    }
}

// The patterns of a row that can stand: `match_digest`, and `match_pattern`.
fn compile_fields(alloc: Global, row: &RuleRow) -> Result<(Option<Regex>, Option<Regex>), RuleFault>
    ensures digest { IfOk result (λ patterns. IsFieldRead row.now.match_digest patterns.0) }
    ensures pattern { IfOk result (λ patterns. IsFieldRead row.now.match_pattern patterns.1) }
    ensures sound { OnOk result (IsSound row.now) }
    ensures fault { IfErr result (IsFaultOfNew row.now) }
{
    let match_digest = compile_field(alloc, row.rule_id, &row.match_digest)?;
    let match_pattern = compile_field(alloc, row.rule_id, &row.match_pattern)?;
    if row.replaces_nothing() {
        return Err(RuleFault::ReplaceWithoutPattern { id: row.rule_id });
    }
    Ok((match_digest, match_pattern))
}

impl Rule {
    /// The rule of a row.
    pub(crate) fn compile(alloc: Global, row: RuleRow) -> Result<Rule, RuleFault>
        ensures row { IfOk result (λ rule. rule.row ≡ row) }
        ensures patterns { IfOk result IsCompiled }
        ensures sound { OnOk result (IsSound row) }
        ensures fault { IfErr result (IsFaultOfNew row) }
    {
        let (match_digest, match_pattern) = compile_fields(alloc, &row)?;
        Ok(Rule {
            row,
            match_digest,
            match_pattern,
        })
    }

    /// Whether it may set this flag for what comes next.
    pub(crate) fn sets_flag(&self, flag: u16) -> bool
        ensures { result ≡ sets_flag flag self.now }
    {
        self.row.active && self.row.next_query_flagIN == Some(flag)
    }

    // The conditions that cost nothing of the text's length.
    fn admits(&self, ask: &Ask, flag: u16) -> bool
        ensures { result ≡ admits self.now ask.now flag }
    {
        self.row.active
            && self.row.flagIN == flag
            && fits_name(&self.row.username, &ask.user)
            && fits_name(&self.row.schemaname, &ask.schema)
    }

    fn fits_digest(&self, received: &mut Received) -> Result<bool, OutOfMemory>
        ensures fits { IfOk result (λ fits. fits ≡ fits_digest self.now received.old) }
        ensures same { received.new ≡ received.old }
    {
        match self.row.digest {
            Some(hash) => received.has_hash(hash),
            None => Ok(true),
        }
    }

    fn fits_match_digest(&self, received: &mut Received) -> Result<bool, OutOfMemory>
        ensures fits { IfOk result (λ fits. fits ≡ fits_match_digest self.now received.old) }
        ensures same { received.new ≡ received.old }
    {
        match &self.match_digest {
            Some(pattern) => Ok(received.has_in_digest(pattern)? != self.row.negate_match_pattern),
            None => Ok(true),
        }
    }

    fn fits_match_pattern(&self, alloc: Global, text: &Bytes) -> Result<bool, OutOfMemory>
        ensures { IfOk result (λ fits. fits ≡ fits_match_pattern self.now text.now) }
    {
        match &self.match_pattern {
            Some(pattern) => Ok(
                finds(alloc, pattern, text.as_slice())? != self.row.negate_match_pattern,
            ),
            None => Ok(true),
        }
    }

    /// Whether the rule fires: what costs least is asked first.
    pub(crate) fn fires(
        &self,
        alloc: Global,
        ask: &Ask,
        received: &mut Received,
        pass: &Pass,
    ) -> Result<bool, OutOfMemory>
        requires { received.old ≡ ask.now.text }
        ensures fires { IfOk result (λ answer. answer ≡ fires self.now ask.now pass.now) }
        ensures same { received.new ≡ received.old }
    {
        if !self.admits(ask, pass.flag) {
            return Ok(false);
        }
        if !self.fits_digest(received)? {
            return Ok(false);
        }
        if !self.fits_match_digest(received)? {
            return Ok(false);
        }
        self.fits_match_pattern(alloc, &pass.text)
    }

    // The text with what `match_pattern` finds replaced.
    fn rewritten(&self, alloc: Global, text: Bytes) -> Result<Bytes, OutOfMemory>
        ensures { IfOk result (λ out. out ≡ rewritten self.now text) }
    {
        match (&self.match_pattern, &self.row.replace_pattern) {
            (Some(pattern), Some(template)) => {
                replaced(alloc, pattern, template.as_slice(), text.as_slice())
            }
            _ => Ok(text),
        }
    }

    // What is answered in place of running the text.
    fn answer(&self, alloc: Global) -> Result<Option<Stop>, OutOfMemory>
        ensures { IfOk result (λ stop. stop ≡ answer_of self.now) }
    {
        match (&self.row.error_msg, &self.row.OK_msg) {
            (Some(message), _) => Ok(Some(Stop::Error(copy(alloc, message)?))),
            (None, Some(message)) => Ok(Some(Stop::Ok(copy(alloc, message)?))),
            (None, None) => Ok(None),
        }
    }

    /// The pass behind this rule, which fires.
    pub(crate) fn after(&self, alloc: Global, pass: Pass) -> Result<Pass, OutOfMemory>
        ensures { IfOk result (λ next. next ≡ after self.now pass) }
    {
        let row = &self.row;
        Ok(Pass {
            text: self.rewritten(alloc, pass.text)?,
            flag: row.flagOUT.unwrap_or(pass.flag),
            hostgroup: row.destination_hostgroup.or(pass.hostgroup),
            next_flag: row.next_query_flagIN.or(pass.next_flag),
            multiplex: row.multiplex.or(pass.multiplex),
            stop: self.answer(alloc)?,
        })
    }

    /// Whether the pass ends where the rule fires.
    pub(crate) fn is_last(&self) -> bool
        ensures { result ≡ is_last self.now }
    {
        self.row.error_msg.is_some() || self.row.OK_msg.is_some() || self.row.apply
    }
}
