// The server of a load.
ghost use Rattle.std.specs.Prelude.{◌≡◌, IfOk};
ghost use Rattle.generated_load.specs.Server.{first_session, load_tables};

use mem_server::MemServer;
use mx_base::{Bytes, OutOfMemory};
use server_rule::{Capabilities, Cmd, Session};
use session_vars::Settings;
use std::alloc::Global;

/// A session of the user u in the schema `load`, in which nothing ran.
pub fn first_session(alloc: Global) -> Result<Session, OutOfMemory>
    ensures { IfOk result (λ session. session ≡ first_session) }
{
    Ok(Session {
        user: Bytes::from_slice(alloc, b"u")?,
        capabilities: Capabilities {
            found_rows: false,
            multi_results: false,
            ignore_space: false,
        },
        schema: Bytes::from_slice(alloc, b"load")?,
        settings: Settings::defaults(alloc)?,
        tx: Bytes::new(alloc),
        locks: Bytes::new(alloc),
        deep: Bytes::new(alloc),
        last_id: 0,
        diag: Bytes::new(alloc),
    })
}

/// The server of a load: in a session that was then closed, it was asked for the table `t` of the schema `load`.
pub fn load_server(alloc: Global) -> Result<MemServer, OutOfMemory>
    ensures { IfOk result (λ server. server ≡ load_tables) }
{
    let mut server = MemServer::new(alloc);
    let mut session = first_session(alloc)?;
    let create = Cmd::Query {
        text: Bytes::from_slice(alloc, b"CREATE TABLE t")?,
    };
    let _ok = server.run(alloc, &mut session, &create)?;
    let _none = server.run(alloc, &mut session, &Cmd::Close)?;
    Ok(server)
}
