// The table `whitelist`.
ghost use Rattle.std.specs.Prelude.{◌≡◌, ◌≤◌, ◌<◌, [], codes, length};
ghost use Rattle.toml.specs.Data.{get_member};
ghost use Rattle.toml.specs.View.{view, items_view, table_view};
ghost use Rattle.mx_config.specs.Faults.{Gives};
ghost use Rattle.mx_config.specs.Lent.{GivesRows};
ghost use Rattle.mx_config.specs.Lists.{are_texts, digest_at, digest_items, digests_of, few_texts, list_of, list_row};
ghost use Rattle.mx_config.specs.Tables.{rows_from};

use crate::ConfigRefusal;
use crate::fault::{Kind, TableName, refusal};
use crate::row::{Row, row_behind};
use crate::value::{TextForm, member, read_digest_value};
use mx_base::Items;
use sql_whitelist::ListRow;
use std::alloc::Global;
use toml::Value;

/// The keys of a row, in order.
const KEYS: [&str; 3] = ["user", "schema", "digests"];

/// The digests that a row may have.
const MAX_DIGESTS: usize = 10_000;

/// The rows of the whitelist.
pub(crate) fn read_list_rows(
    alloc: Global,
    items: &[Value],
) -> Result<Items<ListRow>, ConfigRefusal>
    requires { length items.now ≤ 1024 }
    ensures { Gives result (rows_from list_row [] (items_view items.now)) }
{
    let mut rows = Items::new(alloc);
    for value in items {
        let row = read_list_row(alloc, rows.as_slice(), value)?;
        rows.push(row)?;
    }
    Ok(rows)
}

// The row of the whitelist behind the rows so far.
#[tactic(auto, unfolding(crate::specs::Lists::list_row))]
fn read_list_row(alloc: Global, before: &[ListRow], value: &Value) -> Result<ListRow, ConfigRefusal>
    requires { length before.now < 1024 }
    ensures { Gives result (list_row before.now (view value.now)) }
{
    let row = row_behind(alloc, TableName::Whitelist, before.len(), value, &KEYS)?;
    read_list(&row)
}

#[tactic(auto, using(crate::proofs::Steps::steps), unfolding(crate::specs::Lists::list_of))]
fn read_list(row: &Row) -> Result<ListRow, ConfigRefusal>
    ensures { Gives result (list_of row.now.place (table_view row.now.members.now)) }
{
    let user = row.text("user", None, TextForm::Any)?;
    let schema = row.text("schema", None, TextForm::Any)?;
    let digests = read_digests(row)?;
    Ok(ListRow {
        user,
        schema,
        digests,
    })
}

// The hashes of the key `digests`.
#[tactic(auto, using(crate::proofs::Steps::steps), unfolding(crate::specs::Lists::digests_of))]
fn read_digests(row: &Row) -> Result<Items<u64>, ConfigRefusal>
    ensures { Gives result (digests_of row.now.place (get_member (codes "digests") (table_view row.now.members.now))) }
{
    match member(row.members, "digests") {
        Some(value) => {
            let items = digest_items(row, value)?;
            read_hashes(row, items)
        }
        None => Err(refusal(row.alloc, row.place, Kind::MissingKey, "digests")),
    }
}

// The texts of a list that isn't too long.
#[tactic(auto, unfolding(crate::specs::Lists::digest_items))]
fn digest_items<'a>(row: &Row, value: &'a Value) -> Result<&'a [Value], ConfigRefusal>
    ensures { GivesRows result (digest_items row.now.place (view value.now)) }
{
    match value.as_array() {
        Some(items) => few_texts(row, items.as_slice()),
        None => Err(refusal(row.alloc, row.place, Kind::WrongType, "digests")),
    }
}

#[tactic(auto, using(crate::proofs::Documents::counting))]
fn few_texts<'a>(row: &Row, items: &'a [Value]) -> Result<&'a [Value], ConfigRefusal>
    ensures { GivesRows result (few_texts row.now.place (items_view items.now)) }
{
    if !are_texts(items) {
        return Err(refusal(row.alloc, row.place, Kind::WrongType, "digests"));
    }
    if MAX_DIGESTS < items.len() {
        return Err(refusal(row.alloc, row.place, Kind::OutOfRange, "digests"));
    }
    Ok(items)
}

fn are_texts(items: &[Value]) -> bool
    ensures { result ≡ are_texts (items_view items.now) }
{
    for item in items {
        if item.as_str().is_none() {
            return false;
        }
    }
    true
}

fn read_hashes(row: &Row, items: &[Value]) -> Result<Items<u64>, ConfigRefusal>
    ensures { Gives result (rows_from (λ _ entry. digest_at row.now.place entry) [] (items_view items.now)) }
{
    let mut hashes = Items::new(row.alloc);
    for value in items {
        let hash = read_hash(row, value)?;
        hashes.push(hash)?;
    }
    Ok(hashes)
}

fn read_hash(row: &Row, value: &Value) -> Result<u64, ConfigRefusal>
    ensures { Gives result (digest_at row.now.place (view value.now)) }
{
    match read_digest_value(value) {
        Ok(hash) => Ok(hash),
        Err(kind) => Err(refusal(row.alloc, row.place, kind, "digests")),
    }
}
