// The staged tables.
ghost use Rattle.std.specs.Prelude.{◌≡◌, ◌≤◌, [], All, IfOk, IfErr, Some};
ghost use Rattle.admin_port.specs.Faults.{Changes, Refuses};
ghost use Rattle.admin_port.specs.Staged.{changed, cleared, deleted, inserted, updated, with_rules};

use crate::Fault;
use crate::rules::{insert_rule, put_rules, remove_rule, set_rule};
use crate::servers::{insert_server, remove_server, set_server};
use crate::statement::{Action, Change, Key, StagedTable};
use hostgroups::ServerRow;
use mx_base::OutOfMemory;
use query_rules::RuleRow;
use std::alloc::Global;
use std::marker::Model;

fn copies(alloc: Global, rows: &[ServerRow]) -> Result<Vec<ServerRow>, OutOfMemory>
    ensures { IfOk result (λ copies. copies.items ≡ rows.now) }
{
    Ok(rows.to_vec(alloc)?)
}

/// The tables that administrators change, and that LOAD puts in force: the rows of servers in their order, and those of rules in
/// the order of their numbers.
#[derive(Drop)]
pub struct Staged {
    servers: Vec<ServerRow>,
    rules: Vec<RuleRow>,
}

impl Model for Staged {
    ghost use Rattle.std.specs.Prelude.{◌≤◌, All};
    ghost use Rattle.admin_port.specs.Staged.{StagedRows};

    ghost Value = { StagedRows };

    ghost view = { λ s. record { servers = s.servers.items; rules = s.rules.items } };

    ghost invariant = { λ s. All (λ row. 1 ≤ row.weight) s.servers.items };
}

impl Staged {
    /// Empty tables. Takes no memory.
    pub fn new(alloc: Global) -> Self
        ensures { result ≡ record { servers = []; rules = [] } }
    {
        Staged {
            servers: Vec::new(alloc),
            rules: Vec::new(alloc),
        }
    }

    /// The rows of a configuration, the rules in the order of their numbers. Refused exactly where two rules have one number, or there
    /// are more than 10,000: so none that was read is.
    pub fn of(alloc: Global, servers: &[ServerRow], rules: &[RuleRow]) -> Result<Staged, Fault>
        requires { All (λ row. 1 ≤ row.weight) servers.now }
        ensures servers { IfOk result (λ staged. staged.servers ≡ servers.now) }
        ensures rules { IfOk result (λ staged. with_rules [] rules.now ≡ Some staged.rules) }
        ensures refused { IfErr result (λ fault. Refuses fault (with_rules [] rules.now)) }
    {
        let rows = copies(alloc, servers)?;
        let mut placed = Vec::new(alloc);
        put_rules(alloc, &mut placed, rules)?;
        Ok(Staged {
            servers: rows,
            rules: placed,
        })
    }

    /// The servers.
    pub fn servers(&self) -> &[ServerRow]
        ensures rows { result.now ≡ self.now.servers }
        ensures weights { All (λ row. 1 ≤ row.weight) result.now }
    {
        &self.servers
    }

    /// The rules.
    pub fn rules(&self) -> &[RuleRow]
        ensures { result.now ≡ self.now.rules }
    {
        &self.rules
    }

    /// Does what a statement says, where the texts of patterns that it gives are patterns, or where one is none. A refusal changes
    /// nothing.
    pub fn change(
        &mut self,
        alloc: Global,
        action: Action,
        change: &Change,
        patterned: bool,
    ) -> Result<(), Fault>
        ensures { Changes result self.old self.new (changed patterned self.old action change.now) }
    {
        match action {
            Action::Insert => self.insert(alloc, change, patterned),
            Action::Update => self.update(alloc, change, patterned),
            Action::Delete => self.delete(change),
        }
    }

    // Inserts the row of an INSERT, where the texts of patterns that it gives are patterns, or where one is none. A refusal changes
    // nothing.
    #[tactic(auto, using(crate::proofs::Tables::tables))]
    fn insert(&mut self, alloc: Global, change: &Change, patterned: bool) -> Result<(), Fault>
        ensures { Changes result self.old self.new (inserted patterned self.old change.now.table change.now.pairs) }
    {
        match change.table {
            StagedTable::Servers => {
                insert_server(alloc, &mut self.servers, change.pairs.as_slice(), patterned)
            }
            StagedTable::Rules => insert_rule(
                alloc,
                &mut self.rules,
                change.pairs.as_slice(),
                patterned,
            ),
        }
    }

    // Gives the row of an UPDATE its values, where the texts of patterns among them are patterns, or where one is none. A refusal
    // changes nothing.
    #[tactic(auto, using(crate::proofs::Tables::tables))]
    fn update(&mut self, alloc: Global, change: &Change, patterned: bool) -> Result<(), Fault>
        ensures { Changes result self.old self.new (updated patterned self.old change.now.key change.now.pairs) }
    {
        match &change.key {
            Key::Server(key) => {
                set_server(
                    alloc,
                    &mut self.servers,
                    key,
                    change.pairs.as_slice(),
                    patterned,
                )
            }
            Key::Rule(id) => set_rule(
                alloc,
                &mut self.rules,
                *id,
                change.pairs.as_slice(),
                patterned,
            ),
            Key::All => Err(Fault::Refused),
        }
    }

    // Takes the rows of a DELETE out. A refusal changes nothing.
    #[tactic(auto, using(crate::proofs::Tables::tables))]
    fn delete(&mut self, change: &Change) -> Result<(), Fault>
        ensures { Changes result self.old self.new (deleted self.old change.now.table change.now.key) }
    {
        match &change.key {
            Key::Server(key) => remove_server(&mut self.servers, key),
            Key::Rule(id) => remove_rule(&mut self.rules, *id),
            Key::All => {
                self.clear(change.table);
                Ok(())
            }
        }
    }

    // Empties a table.
    fn clear(&mut self, table: StagedTable)
        ensures { self.new ≡ cleared self.old table }
    {
        match table {
            StagedTable::Servers => self.servers.clear(),
            StagedTable::Rules => self.rules.clear(),
        }
    }
}
