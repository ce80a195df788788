// The configuration of a load.
ghost use Rattle.std.specs.Prelude.{◌≡◌, [], ◌∷◌, IfOk};
ghost use Rattle.mx_config.specs.Lawful.{IsLawful};
ghost use Rattle.generated_load.specs.Configs.{load_config, proxy_row, server_row, user_row};

use hostgroups::{ServerRow, ServerStatus};
use mx_base::{Address, Bytes, Hostgroup, Items, OutOfMemory};
use mx_config::{Config, ProxyRow, UserRow};
use std::alloc::Global;

// An address of this machine.
fn local(port: u16) -> Address
    ensures { result ≡ record { ip = 127 ∷ 0 ∷ 0 ∷ 1 ∷ []; port = port } }
{
    Address {
        ip: [127, 0, 0, 1],
        port,
    }
}

fn proxy_row(alloc: Global) -> Result<ProxyRow, OutOfMemory>
    ensures { IfOk result (λ row. row ≡ proxy_row) }
{
    Ok(ProxyRow {
        listen: local(6033),
        admin_listen: local(6032),
        admin_user: Bytes::from_slice(alloc, b"admin")?,
        admin_password: Bytes::new(alloc),
        server_version: Bytes::from_slice(alloc, b"8.0.30-mx")?,
        default_schema: Bytes::from_slice(alloc, b"load")?,
        max_clients: 1000,
        max_packet: 67_108_864,
        buffer_budget: 1_073_741_824,
        wait_ms: 10_000,
        idle_ms: 600_000,
    })
}

fn user_row(alloc: Global) -> Result<UserRow, OutOfMemory>
    ensures { IfOk result (λ row. row ≡ user_row) }
{
    Ok(UserRow {
        name: Bytes::from_slice(alloc, b"u")?,
        password: Bytes::new(alloc),
        default_hostgroup: Hostgroup(0),
        whitelist: false,
    })
}

fn server_row() -> ServerRow
    ensures { result ≡ server_row }
{
    ServerRow {
        hostgroup: Hostgroup(0),
        address: local(3306),
        weight: 1,
        max_connections: 8,
        status: ServerStatus::Online,
    }
}

/// The configuration of a load: the user u without a password, a server with eight connections, the schema `load`, and else what a file
/// has that doesn't say.
#[tactic(auto, using(crate::proofs::Lawful::lawful))]
pub fn load_config(alloc: Global) -> Result<Config, OutOfMemory>
    ensures config { IfOk result (λ config. config ≡ load_config) }
    ensures lawful { IfOk result IsLawful }
{
    let mut users = Items::new(alloc);
    users.push(user_row(alloc)?)?;
    let mut servers = Items::new(alloc);
    servers.push(server_row())?;
    Ok(Config {
        proxy: proxy_row(alloc)?,
        users,
        servers,
        rules: Items::new(alloc),
        whitelist: Items::new(alloc),
    })
}
