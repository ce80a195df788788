// Reading a configuration.
ghost use Rattle.std.specs.Prelude.{◌≡◌, ◌≤◌, ◌&&◌, ℕ, Bool, List, nat_le, IfOk, length, codes};
ghost use Rattle.std.specs.Bool.{OnTrue};
ghost use Rattle.toml.specs.Data.{get_member};
ghost use Rattle.toml.specs.View.{view, table_view, items_view};
ghost use Rattle.mx_config.specs.Faults.{Gives, at_row};
ghost use Rattle.mx_config.specs.Lawful.{IsLawfulProxy, AreLawfulUsers, AreLawfulServers, AreLawfulRules, IsLawful, IsBetween};
ghost use Rattle.mx_config.specs.Values.{Agrees};
ghost use Rattle.mx_config.specs.Lent.{GivesRows};
ghost use Rattle.mx_config.specs.Reading.{config_of, proxy_of, users_of, servers_of, rules_of, lists_of, rows_at, reading_of};

use crate::fault::{Kind, Place, TableName, refusal};
use crate::lists::read_list_rows;
use crate::proxy::read_proxy_row;
use crate::row::{Row, row_table};
use crate::rules::read_rule_rows;
use crate::servers::read_server_rows;
use crate::users::read_user_rows;
use crate::value::member;
use crate::{Config, ConfigRefusal, ProxyRow, UserRow};
use hostgroups::ServerRow;
use mx_base::Items;
use query_rules::RuleRow;
use sql_whitelist::ListRow;
use std::alloc::Global;
use toml::{Table, Value};

/// The rows that the table `users`, `servers` or `whitelist` may have.
const MAX_ROWS: usize = 1024;

/// The rows that the table `rules` may have.
const MAX_RULES: usize = 10_000;

/// The configuration that a file says, or its first fault (after ProxySQL, "Configuration file"; the tables and keys are
/// those of `mysql_variables`, `mysql_users`, `mysql_servers` and `mysql_query_rules`, in TOML).
///
/// Bytes that are no TOML document come first, then unknown tables, the least name first, then the tables `proxy`, `users`,
/// `servers`, `rules` and `whitelist` in this order, each with its rows in order. In a row the least unknown key comes first, and then its keys
/// in the order of their fields in `ProxyRow`, `UserRow` and `ServerRow`, of a rule in that of the README's table, each tried for
/// being missing, for its type, for an address, for its range and for a pattern; then comes a template without a match, and last
/// a row that is a duplicate of an earlier one. A table that is none, or has too
/// many or too few rows, is refused before its rows. Takes time and memory in proportion to the file.
pub fn read_config(alloc: Global, bytes: &[u8]) -> Result<Config, ConfigRefusal>
    ensures said { (is_pattern : List ℕ → Bool) → Agrees is_pattern → Gives result (reading_of is_pattern bytes.now) }
    ensures lawful { IfOk result IsLawful }
{
    match toml::table_from_slice(alloc, bytes) {
        Ok(file) => read_file(alloc, &file),
        Err(fault) => {
            if fault.is_memory() {
                return Err(ConfigRefusal::OutOfMemory);
            }
            Err(refusal(alloc, whole(TableName::File), Kind::NotToml, ""))
        }
    }
}

// A table as a whole.
fn whole(table: TableName) -> Place
    ensures { result ≡ at_row table 0 }
{
    Place { table, row: 0 }
}

#[tactic(auto, unfolding(crate::specs::Reading::config_of))]
fn read_file(alloc: Global, file: &Table) -> Result<Config, ConfigRefusal>
    ensures said { (is_pattern : List ℕ → Bool) → Agrees is_pattern → Gives result (config_of is_pattern (table_view file.now)) }
    ensures lawful { IfOk result IsLawful }
{
    let row = Row {
        alloc,
        place: whole(TableName::File),
        members: file,
    };
    row.only(&["proxy", "users", "servers", "rules", "whitelist"])?;
    let proxy = read_proxy(alloc, file)?;
    let users = read_users(alloc, file)?;
    let servers = read_servers(alloc, file)?;
    let rules = read_rules(alloc, file)?;
    let whitelist = read_whitelist(alloc, file)?;
    Ok(Config {
        proxy,
        users,
        servers,
        rules,
        whitelist,
    })
}

fn read_proxy(alloc: Global, file: &Table) -> Result<ProxyRow, ConfigRefusal>
    ensures said { Gives result (proxy_of (get_member (codes "proxy") (table_view file.now))) }
    ensures lawful { IfOk result IsLawfulProxy }
{
    match member(file, "proxy") {
        Some(value) => {
            let members = row_table(alloc, whole(TableName::Proxy), value)?;
            read_proxy_row(alloc, members)
        }
        None => {
            let empty = Table::new(alloc);
            read_proxy_row(alloc, &empty)
        }
    }
}

fn read_users(alloc: Global, file: &Table) -> Result<Items<UserRow>, ConfigRefusal>
    ensures said { Gives result (users_of (get_member (codes "users") (table_view file.now))) }
    ensures lawful { IfOk result AreLawfulUsers }
{
    let place = whole(TableName::Users);
    let Some(value) = member(file, "users") else {
        return Err(refusal(alloc, place, Kind::MissingKey, "users"));
    };
    let items = table_rows(alloc, place, 1, MAX_ROWS, value)?;
    read_user_rows(alloc, items)
}

fn read_servers(alloc: Global, file: &Table) -> Result<Items<ServerRow>, ConfigRefusal>
    ensures said { Gives result (servers_of (get_member (codes "servers") (table_view file.now))) }
    ensures lawful { IfOk result AreLawfulServers }
{
    match member(file, "servers") {
        Some(value) => {
            let items = table_rows(alloc, whole(TableName::Servers), 0, MAX_ROWS, value)?;
            read_server_rows(alloc, items)
        }
        None => Ok(Items::new(alloc)),
    }
}

fn read_rules(alloc: Global, file: &Table) -> Result<Items<RuleRow>, ConfigRefusal>
    ensures said { (is_pattern : List ℕ → Bool) → Agrees is_pattern
        → Gives result (rules_of is_pattern (get_member (codes "rules") (table_view file.now))) }
    ensures lawful { IfOk result AreLawfulRules }
{
    match member(file, "rules") {
        Some(value) => {
            let items = table_rows(alloc, whole(TableName::Rules), 0, MAX_RULES, value)?;
            read_rule_rows(alloc, items)
        }
        None => Ok(Items::new(alloc)),
    }
}

fn read_whitelist(alloc: Global, file: &Table) -> Result<Items<ListRow>, ConfigRefusal>
    ensures { Gives result (lists_of (get_member (codes "whitelist") (table_view file.now))) }
{
    match member(file, "whitelist") {
        Some(value) => {
            let items = table_rows(alloc, whole(TableName::Whitelist), 0, MAX_ROWS, value)?;
            read_list_rows(alloc, items)
        }
        None => Ok(Items::new(alloc)),
    }
}

// The rows of a table that has at least and at most so many.
#[tactic(auto, unfolding(crate::specs::Reading::rows_at))]
fn table_rows(
    alloc: Global,
    place: Place,
    least: usize,
    most: usize,
    value: &Value,
) -> Result<&[Value], ConfigRefusal>
    ensures rows { GivesRows result (rows_at place least most (view value.now)) }
    ensures few { IfOk result (λ rows. IsBetween least most (length rows.now)) }
{
    match value.as_array() {
        Some(rows) => {
            let rows = rows.as_slice();
            if is_few(least, most, rows) {
                Ok(rows)
            } else {
                Err(refusal(alloc, place, Kind::OutOfRange, ""))
            }
        }
        None => Err(refusal(alloc, place, Kind::WrongType, "")),
    }
}

fn is_few(least: usize, most: usize, rows: &[Value]) -> bool
    ensures test { result ≡ (nat_le least (length rows.now) && nat_le (length rows.now) most) }
    ensures few { OnTrue result (IsBetween least most (length rows.now)) }
{
    least <= rows.len() && rows.len() <= most
}
