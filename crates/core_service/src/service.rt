// What the core serves by.
ghost use Rattle.std.specs.Prelude.{◌≡◌, ◌≤◌, ℕ, All, IfOk, List, None, length};
ghost use Rattle.client_session.specs.Setups.{most_message};
ghost use Rattle.core_service.specs.Serves.{AreTexts, ServesBy, home_by, home_in, hostgroups_of, rules_in, setup_of, user_of, users_of};
ghost use Rattle.handshake.specs.Spelling.{IsText};
ghost use Rattle.mx_config.specs.Lawful.{IsLawful};
ghost use Rattle.query_rules.specs.Building.{IsCompiled, IsInOrder};
ghost use Rattle.query_rules.specs.Passing.{rows_of, rules_of};

use client_session::{Setup, User};
use hostgroups::ServerRow;
use mx_base::{Address, Bytes, Hostgroup, Items, OutOfMemory};
use mx_config::{Config, ProxyRow, UserRow};
use query_rules::{RuleFault, Rules};
use std::alloc::Global;
use std::collections::HashMap;

/// A user's own hostgroup and password.
#[derive(Drop)]
pub struct UserAt {
    pub home: Hostgroup,
    pub password: Bytes,
}

/// What the core serves by: where it listens, how clients log in, who may, the rules, and its limits. Nothing of it changes but the rules
/// that were loaded last.
#[derive(Drop)]
pub struct Service {
    pub listen: Address,
    pub admin_listen: Address,
    pub setup: Setup,
    pub users: HashMap<Bytes, UserAt>,
    /// The rules of the configuration.
    pub configured: Rules,
    /// Those in force in their place.
    pub loaded: Option<Rules>,
    /// The schema of a client that names none.
    pub default_schema: Bytes,
    /// The hostgroups of the table of servers, row by row.
    pub hostgroups: Items<Hostgroup>,
    pub wait_ms: u64,
    pub idle_ms: u64,
    pub buffer_budget: u64,
}

fn user_of(alloc: Global, row: &UserRow) -> Result<User, OutOfMemory>
    requires { IsText row.now.name }
    ensures { IfOk result (λ user. user ≡ user_of row.now) }
{
    let name = Bytes::from_slice(alloc, row.name.as_slice())?;
    let password = Bytes::from_slice(alloc, row.password.as_slice())?;
    Ok(User::new(name, password))
}

// Who may log in.
fn users_of(alloc: Global, rows: &[UserRow]) -> Result<Vec<User>, OutOfMemory>
    requires { AreTexts rows.now }
    ensures { IfOk result (λ users. users.items ≡ users_of rows.now) }
{
    let mut users = Vec::new(alloc);
    for row in rows {
        users.push(user_of(alloc, row)?)?;
    }
    Ok(users)
}

// Who may log in at the port of administrators.
fn admin_of(alloc: Global, proxy: &ProxyRow) -> Result<User, OutOfMemory>
    requires { IsText proxy.now.admin_user }
    ensures { IfOk result (λ user. user ≡ record { name = proxy.now.admin_user; password = proxy.now.admin_password }) }
{
    let name = Bytes::from_slice(alloc, proxy.admin_user.as_slice())?;
    let password = Bytes::from_slice(alloc, proxy.admin_password.as_slice())?;
    Ok(User::new(name, password))
}

// How clients log in.
fn setup_of(alloc: Global, config: &Config) -> Result<Setup, OutOfMemory>
    requires version { IsText config.now.proxy.server_version }
    requires short { length config.now.proxy.server_version ≤ 255 }
    requires limit { config.now.proxy.max_packet ≤ most_message }
    requires names { AreTexts config.now.users }
    requires admin { IsText config.now.proxy.admin_user }
    ensures { IfOk result (λ setup. setup ≡ setup_of config.now) }
{
    let version = Bytes::from_slice(alloc, config.proxy.server_version.as_slice())?;
    let users = users_of(alloc, config.users.as_slice())?;
    let admin = admin_of(alloc, &config.proxy)?;
    Ok(Setup::new(
        version,
        users,
        admin,
        config.proxy.max_packet,
        config.proxy.max_clients,
        None,
    ))
}

// Each user's own hostgroup and password. Of a name the first row holds, so it is put in last.
fn homes_of(alloc: Global, rows: &[UserRow]) -> Result<HashMap<Bytes, UserAt>, OutOfMemory>
    ensures { IfOk result (λ users. (user : List ℕ) → home_in users user ≡ home_by rows.now user) }
{
    let mut users = HashMap::new(alloc);
    for k in (0..rows.len()).rev() {
        let row = &rows[k];
        let name = Bytes::from_slice(alloc, row.name.as_slice())?;
        let user = UserAt {
            home: row.default_hostgroup,
            password: Bytes::from_slice(alloc, row.password.as_slice())?,
        };
        users.insert(name, user)?;
    }
    Ok(users)
}

fn hostgroups_of(alloc: Global, rows: &[ServerRow]) -> Result<Items<Hostgroup>, OutOfMemory>
    ensures { IfOk result (λ hostgroups. hostgroups ≡ hostgroups_of rows.now) }
{
    let mut hostgroups = Items::new(alloc);
    for row in rows {
        hostgroups.push(row.hostgroup)?;
    }
    Ok(hostgroups)
}

// The rules of a configuration that was read stand.
fn rules_of(alloc: Global, config: &Config) -> Result<Rules, OutOfMemory>
    ensures rows { IfOk result (λ rules. IsInOrder config.now.rules (rows_of rules)) }
    ensures patterns { IfOk result (λ rules. All IsCompiled (rules_of rules)) }
{
    match Rules::build(alloc, config.rules.as_slice()) {
        Ok(rules) => Ok(rules),
        Err(_) => Err(OutOfMemory),
    }
}

impl Service {
    /// What a configuration says.
    #[tactic(auto, using(crate::proofs::Configured::lawful_version, crate::proofs::Configured::lawful_names, crate::proofs::Configured::lawful_admin))]
    pub fn new(alloc: Global, config: &Config) -> Result<Self, OutOfMemory>
        requires { IsLawful config.now }
        ensures serves { IfOk result (λ service. ServesBy config.now service) }
        ensures unloaded { IfOk result (λ service. service.loaded ≡ None) }
    {
        Ok(Service {
            listen: config.proxy.listen,
            admin_listen: config.proxy.admin_listen,
            setup: setup_of(alloc, config)?,
            users: homes_of(alloc, config.users.as_slice())?,
            configured: rules_of(alloc, config)?,
            loaded: None,
            default_schema: Bytes::from_slice(alloc, config.proxy.default_schema.as_slice())?,
            hostgroups: hostgroups_of(alloc, config.servers.as_slice())?,
            wait_ms: config.proxy.wait_ms,
            idle_ms: config.proxy.idle_ms,
            buffer_budget: config.proxy.buffer_budget,
        })
    }

    /// The rules in force.
    pub fn rules(&self) -> &Rules
        ensures { rules_of result.now ≡ rules_in self.now }
    {
        match &self.loaded {
            Some(rules) => rules,
            None => &self.configured,
        }
    }

    /// The hostgroup to which a user's statements go where nothing else says so.
    pub fn home(&self, user: &Bytes) -> Hostgroup
        ensures { result ≡ home_in self.now.users user.now }
    {
        match self.users.get(user) {
            Some(user) => user.home,
            None => Hostgroup(0),
        }
    }

    /// A user's password.
    pub fn password(&self, user: &Bytes) -> &[u8] {
        match self.users.get(user) {
            Some(user) => user.password.as_slice(),
            None => &[],
        }
    }
}
