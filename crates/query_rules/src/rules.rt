// The rules in force.
ghost use Rattle.std.specs.Prelude.{◌≡◌, ◌≢◌, map, All, IfOk, OnOk, IfErr, None};
ghost use Rattle.std.specs.List.{list_any};
ghost use Rattle.query_rules.specs.Effects.{is_first_flag, sets_flag};
ghost use Rattle.query_rules.specs.Passing.{rules_of, rows_of, passed, route_of};
ghost use Rattle.query_rules.specs.Building.{IsInOrder, IsCompiled, Stands, AllStand, IsFaultOf, IsFirstOf, IsFirstFault};

use crate::pass::Pass;
use crate::received::Received;
use crate::rule::Rule;
use crate::{Ask, Routed, RuleFault, RuleRow};
use mx_base::{Items, OutOfMemory};
use std::alloc::Global;

/// The rules of a table, in order of `rule_id`.
#[derive(Drop)]
pub struct Rules {
    alloc: Global,
    rules: Items<Rule>,
}

impl Rules {
    /// The rules of a table (ProxySQL documentation, "mysql_query_rules"), whose rows may stand in any order. Each pattern is
    /// compiled once, here. `DuplicateId` comes where two rows have one id, `BadPattern` where a pattern is refused, and
    /// `ReplaceWithoutPattern` where a template is without a match, of inactive rows too. Of several faults the one of the
    /// least id comes, and there they come in this order.
    pub fn build(alloc: Global, rows: &[RuleRow]) -> Result<Rules, RuleFault>
        ensures rows { IfOk result (λ rules. IsInOrder rows.now (rows_of rules)) }
        ensures patterns { IfOk result (λ rules. All IsCompiled (rules_of rules)) }
        ensures stand { IfOk result (λ rules. AllStand None (rows_of rules)) }
        ensures fault { IfErr result (IsFirstFault rows.now) }
    {
        let rows = in_order(alloc, rows)?;
        let rules = compiled(alloc, rows)?;
        Ok(Rules { alloc, rules })
    }

    /// What the rules say of a text (ProxySQL documentation, "mysql_query_rules"): those that are active are tried in
    /// order of `rule_id`, up to the first that fires and has `error_msg`, `OK_msg` or `apply`. The text and what it is
    /// rewritten to are bytes of any kind. The only error is want of memory.
    pub fn route(&self, ask: &Ask) -> Result<Routed, OutOfMemory>
        ensures { IfOk result (λ routed. routed ≡ route_of (rules_of self.now) ask.now) }
    {
        let mut received = Received::new(self.alloc, ask.text.as_slice());
        let pass = Pass::begin(self.alloc, ask)?;
        let end = self.passed(ask, &mut received, pass)?;
        Ok(end.routed(ask.default_hostgroup))
    }

    /// Whether rules may be tried first by this flag: 0, or one that an active rule sets by `next_query_flagIN`.
    pub fn is_first_flag(&self, flag: u16) -> bool
        ensures { result ≡ is_first_flag (rules_of self.now) flag }
    {
        flag == 0 || sets_flag(self.rules.as_slice(), flag)
    }

    // The pass at its end.
    fn passed(
        &self,
        ask: &Ask,
        received: &mut Received,
        mut pass: Pass,
    ) -> Result<Pass, OutOfMemory>
        requires { received.old ≡ ask.now.text }
        ensures { IfOk result (λ end. end ≡ passed ask.now (rules_of self.now) pass) }
    {
        for rule in self.rules.as_slice() {
            if rule.fires(self.alloc, ask, received, &pass)? {
                pass = rule.after(self.alloc, pass)?;
                if rule.is_last() {
                    return Ok(pass);
                }
            }
        }
        Ok(pass)
    }
}

// Whether one of these rules may set a flag for what comes next.
fn sets_flag(rules: &[Rule], flag: u16) -> bool
    ensures { result ≡ list_any (sets_flag flag) rules.now }
{
    rules.iter().any(|rule| rule.sets_flag(flag))
}

// Copies of the rows, in order of `rule_id`.
fn in_order(alloc: Global, rows: &[RuleRow]) -> Result<Vec<RuleRow>, OutOfMemory>
    ensures { IfOk result (λ sorted. IsInOrder rows.now sorted.items) }
{
    let mut sorted = Vec::with_capacity(alloc, rows.len())?;
    for row in rows {
        sorted.push(row.copy(alloc)?)?;
    }
    sorted.sort_by_key(|row| row.rule_id)?;
    Ok(sorted)
}

// The rule of a row behind one of this id.
fn compile_behind(alloc: Global, last: Option<u32>, row: RuleRow) -> Result<Rule, RuleFault>
    ensures row { IfOk result (λ rule. rule.row ≡ row) }
    ensures patterns { IfOk result IsCompiled }
    ensures stands { OnOk result (Stands last row) }
    ensures fault { IfErr result (IsFaultOf last row) }
{
    let id = row.rule_id;
    if last == Some(id) {
        return Err(RuleFault::DuplicateId { id });
    }
    Rule::compile(alloc, row)
}

// The rules of rows that stand in order.
fn compiled(alloc: Global, rows: Vec<RuleRow>) -> Result<Items<Rule>, RuleFault>
    ensures rows { IfOk result (λ rules. map (λ rule. rule.row) rules ≡ rows.items) }
    ensures patterns { IfOk result (All IsCompiled) }
    ensures stand { OnOk result (AllStand None rows.items) }
    ensures fault { IfErr result (λ fault. fault ≢ RuleFault.OutOfMemory → IsFirstOf None rows.items fault) }
{
    let mut rules = Items::new(alloc);
    let mut last = None;
    for row in rows {
        let id = row.rule_id;
        rules.push(compile_behind(alloc, last, row)?)?;
        last = Some(id);
    }
    Ok(rules)
}
