// The table `users`.
ghost use Rattle.std.specs.Prelude.{◌≡◌, ◌≤◌, ◌<◌, ◌++◌, ◌∷◌, [], true, false, length, IfOk, OnOk};
ghost use Rattle.toml.specs.View.{view, items_view, table_view};
ghost use Rattle.mx_config.specs.Faults.{Gives};
ghost use Rattle.mx_config.specs.Lawful.{IsBetween, IsLawfulUser, AreLawfulUsers};
ghost use Rattle.mx_config.specs.Tables.{has_user, user_of, user_row, rows_from, new_user};
ghost use Rattle.mx_config.specs.Values.{fits};
ghost use Rattle.mx_config.specs.declared.value.TextForm.TheVariants.{Any, NotEmpty};

use crate::fault::{Kind, Place, TableName, refusal};
use crate::row::{Row, row_behind};
use crate::table::{Keyed, KeyedRows};
use crate::value::TextForm;
use crate::{ConfigRefusal, UserRow};
use mx_base::{Bytes, Hostgroup, Items, OutOfMemory};
use std::alloc::Global;
use toml::Value;

/// The keys of a row, in order.
const KEYS: [&str; 4] = ["name", "password", "default_hostgroup", "whitelist"];

// The users so far.
type UserTable = KeyedRows<UserRow>;

impl Keyed for UserRow {
    type Key = Bytes;

    ghost key_of = { λ row. row.name };

    fn key(&self, alloc: Global) -> Result<Bytes, OutOfMemory> {
        Ok(Bytes::from_slice(alloc, self.name.as_slice())?)
    }
}

/// The rows of users.
pub(crate) fn read_user_rows(
    alloc: Global,
    items: &[Value],
) -> Result<Items<UserRow>, ConfigRefusal>
    requires { IsBetween 1 1024 (length items.now) }
    ensures said { Gives result (rows_from user_row [] (items_view items.now)) }
    ensures lawful { IfOk result AreLawfulUsers }
{
    let mut users = UserTable::new(alloc);
    for value in items {
        let row = read_user_row(alloc, &users, value)?;
        users.push(alloc, row)?;
    }
    Ok(users.into_rows())
}

// The row of users behind the rows so far.
#[tactic(auto, unfolding(crate::specs::Tables::user_row))]
fn read_user_row(alloc: Global, before: &UserTable, value: &Value) -> Result<UserRow, ConfigRefusal>
    requires { length before.now < 1024 }
    ensures said { Gives result (user_row before.now (view value.now)) }
    ensures lawful { IfOk result (IsLawfulUser before.now) }
{
    let row = row_behind(alloc, TableName::Users, before.len(), value, &KEYS)?;
    let user = read_user(&row)?;
    new_user(alloc, row.place, before, &user.name)?;
    Ok(user)
}

#[tactic(auto, using(crate::proofs::Steps::steps), unfolding(crate::specs::Tables::user_of))]
fn read_user(row: &Row) -> Result<UserRow, ConfigRefusal>
    ensures said { Gives result (user_of row.now.place (table_view row.now.members.now)) }
    ensures name { IfOk result (λ user. fits NotEmpty user.name ≡ true) }
    ensures password { IfOk result (λ user. fits Any user.password ≡ true) }
{
    let name = row.text("name", None, TextForm::NotEmpty)?;
    let password = row.text("password", None, TextForm::Any)?;
    let hostgroup = row.number("default_hostgroup", Some(0), 0, 65_535)?;
    let whitelist = row.switch("whitelist", false)?;
    Ok(UserRow {
        name,
        password,
        default_hostgroup: Hostgroup(hostgroup as u16),
        whitelist,
    })
}

// Refuses a name that a row before has.
fn new_user(
    alloc: Global,
    place: Place,
    before: &UserTable,
    name: &Bytes,
) -> Result<(), ConfigRefusal>
    ensures said { Gives result (new_user place before.now name.now) }
    ensures new { OnOk result (has_user before.now name.now ≡ false) }
{
    if before.has(name) {
        return Err(refusal(alloc, place, Kind::DuplicateUser, "name"));
    }
    Ok(())
}
