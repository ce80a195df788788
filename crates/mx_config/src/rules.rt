// The table `rules`.
ghost use Rattle.std.specs.Prelude.{◌≡◌, ◌≤◌, ◌<◌, ◌++◌, ◌∷◌, [], ℕ, List, Bool, false, length, option_map, IfOk, OnOk};
ghost use Rattle.toml.specs.View.{view, items_view, table_view};
ghost use Rattle.query_rules.specs.Rows.{replaces_nothing};
ghost use Rattle.mx_config.specs.Faults.{Gives};
ghost use Rattle.mx_config.specs.Lawful.{AreLawfulRules, IsBetween, IsLawfulRule};
ghost use Rattle.mx_config.specs.RuleRows.{AreLawfulKeys, answers_of, client_of, effects_of, has_rule, judged_rule, new_rule, patterns_of, replaces, rule_of, rule_row, rule_with, start_of};
ghost use Rattle.mx_config.specs.Tables.{rows_from};
ghost use Rattle.mx_config.specs.Values.{Agrees, AllFit, ArePatterns};
ghost use Rattle.mx_config.specs.declared.value.TextForm.TheVariants.{Any, Message};

use crate::ConfigRefusal;
use crate::fault::{Kind, Place, TableName, refusal};
use crate::row::{Row, row_behind};
use crate::table::{Keyed, KeyedRows};
use crate::value::TextForm;
use mx_base::{Bytes, Hostgroup, Items, OutOfMemory};
use query_rules::RuleRow;
use std::alloc::Global;
use toml::Value;

/// The keys of a row, in order.
const KEYS: [&str; 17] = [
    "rule_id",
    "active",
    "apply",
    "negate_match_pattern",
    "username",
    "schemaname",
    "flagIN",
    "digest",
    "match_digest",
    "match_pattern",
    "flagOUT",
    "next_query_flagIN",
    "replace_pattern",
    "destination_hostgroup",
    "multiplex",
    "error_msg",
    "OK_msg",
];

/// Which rule a row is, and how it is used.
#[derive(Clone, Copy)]
pub(crate) struct RuleStart {
    pub rule_id: u32,
    pub active: bool,
    pub apply: bool,
    pub negate_match_pattern: bool,
}

/// Of which client's texts a rule is.
#[allow(non_snake_case)]
#[derive(Drop)]
pub(crate) struct RuleClient {
    pub username: Option<Bytes>,
    pub schemaname: Option<Bytes>,
    pub flagIN: u16,
}

/// Which of these texts a rule is for.
#[derive(Drop)]
pub(crate) struct RulePatterns {
    pub digest: Option<u64>,
    pub match_digest: Option<Bytes>,
    pub match_pattern: Option<Bytes>,
}

/// What a rule does.
#[allow(non_snake_case)]
#[derive(Drop)]
pub(crate) struct RuleEffects {
    pub flagOUT: Option<u16>,
    pub next_query_flagIN: Option<u16>,
    pub replace_pattern: Option<Bytes>,
    pub destination_hostgroup: Option<Hostgroup>,
    pub multiplex: Option<bool>,
}

/// What is answered in place of running a text.
#[allow(non_snake_case)]
#[derive(Drop)]
pub(crate) struct RuleAnswers {
    pub error_msg: Option<Bytes>,
    pub OK_msg: Option<Bytes>,
}

// The rules so far.
type RuleTable = KeyedRows<RuleRow>;

impl Keyed for RuleRow {
    type Key = u32;

    ghost key_of = { λ row. row.rule_id };

    fn key(&self, _: Global) -> Result<u32, OutOfMemory> {
        Ok(self.rule_id)
    }
}

/// The rows of rules.
pub(crate) fn read_rule_rows(
    alloc: Global,
    items: &[Value],
) -> Result<Items<RuleRow>, ConfigRefusal>
    requires { length items.now ≤ 10000 }
    ensures said { (is_pattern : List ℕ → Bool) → Agrees is_pattern
        → Gives result (rows_from (rule_row is_pattern) [] (items_view items.now)) }
    ensures lawful { IfOk result AreLawfulRules }
{
    let mut rules = RuleTable::new(alloc);
    for value in items {
        let row = read_rule_row(alloc, &rules, value)?;
        rules.push(alloc, row)?;
    }
    Ok(rules.into_rows())
}

// The row of rules behind the rows so far.
#[tactic(auto, unfolding(crate::specs::RuleRows::rule_row))]
fn read_rule_row(alloc: Global, before: &RuleTable, value: &Value) -> Result<RuleRow, ConfigRefusal>
    requires { length before.now < 10000 }
    ensures said { (is_pattern : List ℕ → Bool) → Agrees is_pattern → Gives result (rule_row is_pattern before.now (view value.now)) }
    ensures lawful { IfOk result (IsLawfulRule before.now) }
{
    let row = row_behind(alloc, TableName::Rules, before.len(), value, &KEYS)?;
    let rule = read_rule(&row)?;
    judge(alloc, row.place, before, &rule)?;
    Ok(rule)
}

// The rule that the keys of a row say.
#[tactic(auto, using(crate::proofs::Steps::steps), unfolding(crate::specs::RuleRows::rule_of))]
fn read_rule(row: &Row) -> Result<RuleRow, ConfigRefusal>
    ensures said { (is_pattern : List ℕ → Bool) → Agrees is_pattern
        → Gives result (rule_of is_pattern row.now.place (table_view row.now.members.now)) }
    ensures lawful { IfOk result AreLawfulKeys }
{
    let start = read_start(row)?;
    let client = read_client(row)?;
    let patterns = read_patterns(row)?;
    let effects = read_effects(row)?;
    let answers = read_answers(row)?;
    Ok(rule_with(start, client, patterns, effects, answers))
}

// Refuses a rule that can't stand behind the rows so far.
#[tactic(auto, using(crate::proofs::Steps::steps), unfolding(crate::specs::RuleRows::judged_rule))]
fn judge(
    alloc: Global,
    place: Place,
    before: &RuleTable,
    rule: &RuleRow,
) -> Result<(), ConfigRefusal>
    ensures said { Gives result (judged_rule place before.now rule.now) }
    ensures replaces { OnOk result (replaces_nothing rule.now ≡ false) }
    ensures new { OnOk result (has_rule before.now rule.now.rule_id ≡ false) }
{
    may_replace(alloc, place, rule)?;
    new_id(alloc, place, before, rule.rule_id)
}

#[tactic(auto, using(crate::proofs::Steps::steps), unfolding(crate::specs::RuleRows::start_of))]
fn read_start(row: &Row) -> Result<RuleStart, ConfigRefusal>
    ensures said { Gives result (start_of row.now.place (table_view row.now.members.now)) }
    ensures id { IfOk result (λ start. IsBetween 1 4294967295 start.rule_id) }
{
    let rule_id = row.number("rule_id", None, 1, 4_294_967_295)?;
    let active = row.switch("active", true)?;
    let apply = row.switch("apply", false)?;
    let negate = row.switch("negate_match_pattern", false)?;
    Ok(RuleStart {
        rule_id: rule_id as u32,
        active,
        apply,
        negate_match_pattern: negate,
    })
}

#[tactic(auto, using(crate::proofs::Steps::steps), unfolding(crate::specs::RuleRows::client_of))]
fn read_client(row: &Row) -> Result<RuleClient, ConfigRefusal>
    ensures said { Gives result (client_of row.now.place (table_view row.now.members.now)) }
    ensures lawful { IfOk result (λ client. AllFit Any client.username × AllFit Any client.schemaname) }
{
    let username = row.text_if_there("username", TextForm::Any)?;
    let schemaname = row.text_if_there("schemaname", TextForm::Any)?;
    let flag = row.number("flagIN", Some(0), 0, 65_535)?;
    Ok(RuleClient {
        username,
        schemaname,
        flagIN: flag as u16,
    })
}

#[tactic(auto, using(crate::proofs::Steps::steps), unfolding(crate::specs::RuleRows::patterns_of, crate::specs::Rows::optional_key))]
fn read_patterns(row: &Row) -> Result<RulePatterns, ConfigRefusal>
    ensures said { (is_pattern : List ℕ → Bool) → Agrees is_pattern
        → Gives result (patterns_of is_pattern row.now.place (table_view row.now.members.now)) }
    ensures lawful { IfOk result (λ patterns. ArePatterns patterns.match_digest × ArePatterns patterns.match_pattern) }
{
    let digest = row.digest_if_there("digest")?;
    let match_digest = row.pattern_if_there("match_digest")?;
    let match_pattern = row.pattern_if_there("match_pattern")?;
    Ok(RulePatterns {
        digest,
        match_digest,
        match_pattern,
    })
}

#[tactic(auto, using(crate::proofs::Steps::steps), unfolding(crate::specs::RuleRows::effects_of))]
fn read_effects(row: &Row) -> Result<RuleEffects, ConfigRefusal>
    ensures said { Gives result (effects_of row.now.place (table_view row.now.members.now)) }
    ensures lawful { IfOk result (λ effects. AllFit Any effects.replace_pattern) }
{
    let out = row.small_if_there("flagOUT")?;
    let next = row.small_if_there("next_query_flagIN")?;
    let template = row.text_if_there("replace_pattern", TextForm::Any)?;
    let destination = row.small_if_there("destination_hostgroup")?;
    let multiplex = row.switch_if_there("multiplex")?;
    Ok(RuleEffects {
        flagOUT: out,
        next_query_flagIN: next,
        replace_pattern: template,
        destination_hostgroup: hostgroup_of(destination),
        multiplex,
    })
}

#[tactic(auto, using(crate::proofs::Steps::steps), unfolding(crate::specs::RuleRows::answers_of))]
fn read_answers(row: &Row) -> Result<RuleAnswers, ConfigRefusal>
    ensures said { Gives result (answers_of row.now.place (table_view row.now.members.now)) }
    ensures lawful { IfOk result (λ answers. AllFit Message answers.error_msg × AllFit Message answers.OK_msg) }
{
    let error = row.text_if_there("error_msg", TextForm::Message)?;
    let ok = row.text_if_there("OK_msg", TextForm::Message)?;
    Ok(RuleAnswers {
        error_msg: error,
        OK_msg: ok,
    })
}

fn hostgroup_of(number: Option<u16>) -> Option<Hostgroup>
    ensures { result ≡ option_map (λ n. record { 0 = n }) number }
{
    match number {
        Some(number) => Some(Hostgroup(number)),
        None => None,
    }
}

fn rule_with(
    start: RuleStart,
    client: RuleClient,
    patterns: RulePatterns,
    effects: RuleEffects,
    answers: RuleAnswers,
) -> RuleRow
    ensures { result ≡ rule_with start client patterns effects answers }
{
    RuleRow {
        rule_id: start.rule_id,
        active: start.active,
        username: client.username,
        schemaname: client.schemaname,
        flagIN: client.flagIN,
        digest: patterns.digest,
        match_digest: patterns.match_digest,
        match_pattern: patterns.match_pattern,
        negate_match_pattern: start.negate_match_pattern,
        flagOUT: effects.flagOUT,
        replace_pattern: effects.replace_pattern,
        destination_hostgroup: effects.destination_hostgroup,
        next_query_flagIN: effects.next_query_flagIN,
        multiplex: effects.multiplex,
        error_msg: answers.error_msg,
        OK_msg: answers.OK_msg,
        apply: start.apply,
    }
}

// Refuses a rule with a template, but no match that it could take the place of.
fn may_replace(alloc: Global, place: Place, rule: &RuleRow) -> Result<(), ConfigRefusal>
    ensures said { Gives result (replaces place rule.now) }
    ensures some { OnOk result (replaces_nothing rule.now ≡ false) }
{
    if rule.replaces_nothing() {
        return Err(refusal(alloc, place, Kind::ReplaceWithoutPattern, "replace_pattern"));
    }
    Ok(())
}

// Refuses an id that a row before has.
fn new_id(alloc: Global, place: Place, before: &RuleTable, id: u32) -> Result<(), ConfigRefusal>
    ensures said { Gives result (new_rule place before.now id) }
    ensures new { OnOk result (has_rule before.now id ≡ false) }
{
    if before.has(&id) {
        return Err(refusal(alloc, place, Kind::DuplicateRule, "rule_id"));
    }
    Ok(())
}
