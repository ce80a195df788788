// What is kept for administrators.

use crate::events::Events;
use crate::shown::Shown;
use admin_port::{NamedRow, Running, Staged, variables_of};
use core_service::Failure;
use digest_counts::Digests;
use hostgroups::ServerRow;
use link_state::Purpose;
use mx_base::OutOfMemory;
use mx_config::Config;
use query_rules::RuleRow;
use std::alloc::Global;

/// Counts of the whole router since it began: clients that came, and that were turned away; statements that became due to servers; links that
/// were opened, how often one was lent that had served before, and how often one was reset; and the router's errors by their codes.
#[derive(Clone, Copy)]
pub struct Counts {
    pub clients: u64,
    pub turned_away: u64,
    pub statements: u64,
    pub opened: u64,
    pub reused: u64,
    pub resets: u64,
    pub lost: u64,
    pub not_lent: u64,
    pub refused: u64,
    pub steps_refused: u64,
    pub bad_bytes: u64,
    pub buffers_full: u64,
}

/// What is kept for administrators: the rows of servers in force, and of rules in the order of their numbers; what the configuration says; how
/// often each digest was seen; the last events; and counts.
#[derive(Drop)]
pub struct Board {
    pub servers: Vec<ServerRow>,
    pub rules: Vec<RuleRow>,
    pub variables: Vec<NamedRow>,
    pub digests: Digests,
    pub events: Events,
    pub counts: Counts,
}

fn more(count: &mut u64) {
    *count = count.saturating_add(1);
}

// The rows of a configuration that was read, in the order of their numbers.
fn rules_of(alloc: Global, rows: &[RuleRow]) -> Result<Vec<RuleRow>, OutOfMemory> {
    let Ok(ordered) = Staged::of(alloc, &[], rows) else {
        return Err(OutOfMemory);
    };
    let mut rules = Vec::new(alloc);
    for rule in ordered.rules() {
        rules.push(rule.copy(alloc)?)?;
    }
    Ok(rules)
}

impl Counts {
    /// Nothing happened yet.
    pub fn new() -> Self {
        Counts {
            clients: 0,
            turned_away: 0,
            statements: 0,
            opened: 0,
            reused: 0,
            resets: 0,
            lost: 0,
            not_lent: 0,
            refused: 0,
            steps_refused: 0,
            bad_bytes: 0,
            buffers_full: 0,
        }
    }

    /// A client comes, and is served or turned away.
    pub(crate) fn comes(&mut self, served: bool) {
        more(&mut self.clients);
        if !served {
            more(&mut self.turned_away);
        }
    }

    /// A link is opened.
    pub(crate) fn opens(&mut self) {
        more(&mut self.opened);
    }

    /// A link is lent that may have served before.
    pub(crate) fn lends(&mut self, served: bool) {
        if served {
            more(&mut self.reused);
        }
    }

    /// An answer on a link was heard: it ended a session, or it didn't.
    pub(crate) fn hears(&mut self, purpose: Purpose) {
        match purpose {
            Purpose::End { .. } => more(&mut self.resets),
            _ => {}
        }
    }

    /// A statement became due to a server.
    pub(crate) fn states(&mut self) {
        more(&mut self.statements);
    }

    /// A client is told this error.
    pub fn fails(&mut self, why: Failure) {
        match why {
            Failure::LinkLost => more(&mut self.lost),
            Failure::NoConnection { .. } => more(&mut self.not_lent),
            Failure::Refused => more(&mut self.refused),
            Failure::StepRefused { .. } => more(&mut self.steps_refused),
            Failure::BadBytes { .. } => more(&mut self.bad_bytes),
            Failure::BuffersFull { .. } => more(&mut self.buffers_full),
            Failure::ShuttingDown => {}
        }
    }
}

impl Board {
    /// What a configuration puts in force.
    pub fn new(alloc: Global, config: &Config) -> Result<Self, OutOfMemory> {
        Ok(Board {
            servers: config.servers.as_slice().to_vec(alloc)?,
            rules: rules_of(alloc, config.rules.as_slice())?,
            variables: variables_of(alloc, &config.proxy)?,
            digests: Digests::new(alloc),
            events: Events::new(alloc),
            counts: Counts::new(),
        })
    }

    /// What the router tells of itself, with the rows that were made for this answer.
    pub fn running<'a>(&'a self, shown: &'a Shown) -> Running<'a> {
        Running {
            servers: shown.servers.as_slice(),
            rules: self.rules.as_slice(),
            digests: self.digests.table(),
            pool: shown.pool.as_slice(),
            processes: shown.processes.as_slice(),
            totals: shown.totals.as_slice(),
            events: shown.events.as_slice(),
            variables: self.variables.as_slice(),
        }
    }
}
