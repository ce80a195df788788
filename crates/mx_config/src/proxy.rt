// The table `proxy`.
ghost use Rattle.std.specs.Prelude.{◌≡◌, IfOk};
ghost use Rattle.toml.specs.View.{table_view};
ghost use Rattle.mx_config.specs.Faults.{Gives};
ghost use Rattle.mx_config.specs.Lawful.{AreLawfulTexts, AreLawfulLimits, IsLawfulProxy};
ghost use Rattle.mx_config.specs.Tables.{listening, proxy_texts, proxy_limits, proxy_row};

use crate::fault::{Place, TableName};
use crate::row::Row;
use crate::value::TextForm;
use crate::{ConfigRefusal, ProxyRow};
use mx_base::{Address, Bytes};
use std::alloc::Global;
use toml::Table;

/// The texts of the table.
#[derive(Drop)]
pub(crate) struct ProxyTexts {
    pub admin_user: Bytes,
    pub admin_password: Bytes,
    pub server_version: Bytes,
    pub default_schema: Bytes,
}

/// The numbers of the table.
#[derive(Clone, Copy)]
pub(crate) struct ProxyLimits {
    pub max_clients: u32,
    pub max_packet: u64,
    pub buffer_budget: u64,
    pub wait_ms: u64,
    pub idle_ms: u64,
}

/// The keys of the table, in order.
const KEYS: [&str; 11] = [
    "listen",
    "admin_listen",
    "admin_user",
    "admin_password",
    "server_version",
    "default_schema",
    "max_clients",
    "max_packet",
    "buffer_budget",
    "wait_ms",
    "idle_ms",
];

/// The one row of the table `proxy`.
#[tactic(auto, using(crate::proofs::Steps::steps), unfolding(crate::specs::Tables::proxy_row, crate::specs::Rows::known_only))]
pub(crate) fn read_proxy_row(alloc: Global, members: &Table) -> Result<ProxyRow, ConfigRefusal>
    ensures said { Gives result (proxy_row (table_view members.now)) }
    ensures lawful { IfOk result IsLawfulProxy }
{
    let place = Place {
        table: TableName::Proxy,
        row: 0,
    };
    let row = Row {
        alloc,
        place,
        members,
    };
    row.only(&KEYS)?;
    let (listen, admin_listen) = read_listening(&row)?;
    let texts = read_texts(&row)?;
    let limits = read_limits(&row)?;
    Ok(ProxyRow {
        listen,
        admin_listen,
        admin_user: texts.admin_user,
        admin_password: texts.admin_password,
        server_version: texts.server_version,
        default_schema: texts.default_schema,
        max_clients: limits.max_clients,
        max_packet: limits.max_packet,
        buffer_budget: limits.buffer_budget,
        wait_ms: limits.wait_ms,
        idle_ms: limits.idle_ms,
    })
}

#[tactic(auto, using(crate::proofs::Steps::steps), unfolding(crate::specs::Tables::listening))]
fn read_listening(row: &Row) -> Result<(Address, Address), ConfigRefusal>
    ensures { Gives result (listening row.now.place (table_view row.now.members.now)) }
{
    let listen = row.address("listen", None)?;
    let admin_listen = row.address("admin_listen", None)?;
    Ok((listen, admin_listen))
}

#[tactic(auto, using(crate::proofs::Steps::steps), unfolding(crate::specs::Tables::proxy_texts, crate::specs::Rows::key_of))]
fn read_texts(row: &Row) -> Result<ProxyTexts, ConfigRefusal>
    ensures said { Gives result (proxy_texts row.now.place (table_view row.now.members.now)) }
    ensures lawful { IfOk result AreLawfulTexts }
{
    let admin_user = row.text("admin_user", None, TextForm::NotEmpty)?;
    let admin_password = row.text("admin_password", None, TextForm::Any)?;
    let server_version = row.text("server_version", Some("8.0.30-mx"), TextForm::Short)?;
    let default_schema = row.text("default_schema", Some("information_schema"), TextForm::Any)?;
    Ok(ProxyTexts {
        admin_user,
        admin_password,
        server_version,
        default_schema,
    })
}

#[tactic(auto, using(crate::proofs::Steps::steps), unfolding(crate::specs::Tables::proxy_limits, crate::specs::Rows::key_of))]
fn read_limits(row: &Row) -> Result<ProxyLimits, ConfigRefusal>
    ensures said { Gives result (proxy_limits row.now.place (table_view row.now.members.now)) }
    ensures lawful { IfOk result AreLawfulLimits }
{
    let clients = row.number("max_clients", Some(1000), 1, 4000)?;
    let max_packet = row.number("max_packet", Some(67_108_864), 1024, 268_435_456)?;
    let budget = Some(1_073_741_824);
    let buffer_budget = row.number("buffer_budget", budget, 1_048_576, 2_147_483_648)?;
    let wait_ms = row.number("wait_ms", Some(10_000), 1, 3_600_000)?;
    let idle_ms = row.number("idle_ms", Some(600_000), 1, 86_400_000)?;
    Ok(ProxyLimits {
        max_clients: clients as u32,
        max_packet,
        buffer_budget,
        wait_ms,
        idle_ms,
    })
}
