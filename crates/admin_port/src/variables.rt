// What the configuration says, as variables.
ghost use Rattle.std.specs.Prelude.{◌≡◌, ◌++◌, ◌∷◌, [], IfOk, OnOk, decimal};
ghost use Rattle.admin_port.specs.Variables.{address_rows, address_text, limit_rows, text_rows, time_rows, variable, variables_of};

use crate::row_values::{decimal_text, host_text};
use crate::running::NamedRow;
use mx_base::{Address, Bytes, OutOfMemory};
use mx_config::ProxyRow;
use std::alloc::Global;

// `a.b.c.d:port`.
fn address_text(alloc: Global, address: Address) -> Result<Bytes, OutOfMemory>
    ensures { IfOk result (λ text. text ≡ address_text address) }
{
    let mut text = host_text(alloc, address.ip)?;
    text.append(b":")?;
    let port = decimal_text(alloc, u64::from(address.port))?;
    text.append(port.as_slice())?;
    Ok(text)
}

fn put(
    alloc: Global,
    rows: &mut Vec<NamedRow>,
    name: &[u8],
    value: Bytes,
) -> Result<(), OutOfMemory>
    ensures { OnOk result (rows.new.items ≡ rows.old.items ++ variable name.now value ∷ []) }
{
    let name = Bytes::from_slice(alloc, name)?;
    rows.push(NamedRow { name, value })?;
    Ok(())
}

fn put_text(
    alloc: Global,
    rows: &mut Vec<NamedRow>,
    name: &[u8],
    value: &Bytes,
) -> Result<(), OutOfMemory>
    ensures { OnOk result (rows.new.items ≡ rows.old.items ++ variable name.now value.now ∷ []) }
{
    let value = Bytes::from_slice(alloc, value.as_slice())?;
    put(alloc, rows, name, value)
}

fn put_number(
    alloc: Global,
    rows: &mut Vec<NamedRow>,
    name: &[u8],
    n: u64,
) -> Result<(), OutOfMemory>
    ensures { OnOk result (rows.new.items ≡ rows.old.items ++ variable name.now (decimal n) ∷ []) }
{
    let value = decimal_text(alloc, n)?;
    put(alloc, rows, name, value)
}

fn put_addresses(
    alloc: Global,
    rows: &mut Vec<NamedRow>,
    proxy: &ProxyRow,
) -> Result<(), OutOfMemory>
    ensures { OnOk result (rows.new.items ≡ rows.old.items ++ address_rows proxy.now) }
{
    let listen = address_text(alloc, proxy.listen)?;
    put(alloc, rows, b"listen", listen)?;
    let admin_listen = address_text(alloc, proxy.admin_listen)?;
    put(alloc, rows, b"admin_listen", admin_listen)
}

fn put_texts(alloc: Global, rows: &mut Vec<NamedRow>, proxy: &ProxyRow) -> Result<(), OutOfMemory>
    ensures { OnOk result (rows.new.items ≡ rows.old.items ++ text_rows proxy.now) }
{
    put_text(alloc, rows, b"admin_user", &proxy.admin_user)?;
    put_text(alloc, rows, b"server_version", &proxy.server_version)?;
    put_text(alloc, rows, b"default_schema", &proxy.default_schema)
}

fn put_limits(alloc: Global, rows: &mut Vec<NamedRow>, proxy: &ProxyRow) -> Result<(), OutOfMemory>
    ensures { OnOk result (rows.new.items ≡ rows.old.items ++ limit_rows proxy.now) }
{
    put_number(alloc, rows, b"max_clients", u64::from(proxy.max_clients))?;
    put_number(alloc, rows, b"max_packet", proxy.max_packet)?;
    put_number(alloc, rows, b"buffer_budget", proxy.buffer_budget)
}

fn put_times(alloc: Global, rows: &mut Vec<NamedRow>, proxy: &ProxyRow) -> Result<(), OutOfMemory>
    ensures { OnOk result (rows.new.items ≡ rows.old.items ++ time_rows proxy.now) }
{
    put_number(alloc, rows, b"wait_ms", proxy.wait_ms)?;
    put_number(alloc, rows, b"idle_ms", proxy.idle_ms)
}

/// What the configuration says of the router itself, by the names of its keys, but for the password of administrators.
pub fn variables_of(alloc: Global, proxy: &ProxyRow) -> Result<Vec<NamedRow>, OutOfMemory>
    ensures { IfOk result (λ rows. rows.items ≡ variables_of proxy.now) }
{
    let mut rows = Vec::new(alloc);
    put_addresses(alloc, &mut rows, proxy)?;
    put_texts(alloc, &mut rows, proxy)?;
    put_limits(alloc, &mut rows, proxy)?;
    put_times(alloc, &mut rows, proxy)?;
    Ok(rows)
}
