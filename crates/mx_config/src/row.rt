// The keys of a row.
ghost use Rattle.std.specs.Prelude.{◌≡◌, ◌≤◌, ◌<◌, ◌+◌, ℕ, Bool, List, true, IfOk, OnOk, Some, Ok, map, not, string_bytes};
ghost use Rattle.std.specs.BTreeMap.{keys, IsOrdered};
ghost use Rattle.std.specs.List.{find};
ghost use Rattle.std.specs.Option.{option_copied, ForSome};
ghost use Rattle.std.specs.String.{string_cmp};
ghost use Rattle.toml.specs.View.{view, table_view};
ghost use Rattle.mx_config.specs.Faults.{Gives, at_row};
ghost use Rattle.mx_config.specs.Lent.{GivesTable, GivesRow};
ghost use Rattle.mx_config.specs.Rows.{key_of, optional_key, placed, if_there, or_default, known_only, least_unknown, is_known, table_at};
ghost use Rattle.mx_config.specs.Tables.{row_at};
ghost use Rattle.mx_config.specs.Values.{Agrees, AllFit, ArePatterns, judged, number, text, fits, address_value, host_value, pattern_value, status_value, switch_value, digest_value};
ghost use Rattle.mx_config.specs.declared.value.TextForm.TheVariants.{Any};
ghost use Rattle.query_rules.specs.Patterns.{IsPattern};

use crate::ConfigRefusal;
use crate::fault::{Kind, Place, TableName, refusal};
use crate::value::{
    TextForm, member, read_address_value, read_digest_value, read_host_value, read_number,
    read_status_value, read_switch_value, read_text,
};
use hostgroups::ServerStatus;
use mx_base::{Address, Bytes};
use query_rules::is_pattern;
use std::alloc::Global;
use toml::{Table, Value};

/// A row that is read: its keys with their values, and where it stands.
#[derive(Clone, Copy)]
pub(crate) struct Row<'a> {
    pub alloc: Global,
    pub place: Place,
    pub members: &'a Table,
}

impl Row<'_> {
    /// Refuses the row for the least of its keys that isn't known.
    #[tactic(auto, unfolding(crate::specs::Rows::known_only))]
    pub(crate) fn only(&self, known: &[&str]) -> Result<(), ConfigRefusal>
        ensures { Gives result (known_only self.now.place (map (λ k. k.now) known.now) (table_view self.now.members.now)) }
    {
        match unknown_key(self.members, known) {
            Some(key) => Err(refusal(self.alloc, self.place, Kind::UnknownKey, key)),
            None => Ok(()),
        }
    }

    /// The number of a key, in a range.
    #[tactic(auto, unfolding(crate::specs::Rows::key_of))]
    pub(crate) fn number(
        &self,
        key: &str,
        default: Option<u64>,
        least: u64,
        most: u64,
    ) -> Result<u64, ConfigRefusal>
        requires { ForSome default (λ n. (least ≤ n) × (n ≤ most)) }
        ensures value { Gives result (key_of self.now.place key.now default (number least most) (table_view self.now.members.now)) }
        ensures range { IfOk result (λ n. (least ≤ n) × (n ≤ most)) }
    {
        match member(self.members, key) {
            Some(value) => match read_number(value, least, most) {
                Ok(n) => Ok(n),
                Err(kind) => Err(refusal(self.alloc, self.place, kind, key)),
            },
            None => match default {
                Some(n) => Ok(n),
                None => Err(refusal(self.alloc, self.place, Kind::MissingKey, key)),
            },
        }
    }

    /// The text of a key, of a form.
    #[tactic(auto, unfolding(crate::specs::Rows::key_of))]
    pub(crate) fn text(
        &self,
        key: &str,
        default: Option<&str>,
        form: TextForm,
    ) -> Result<Bytes, ConfigRefusal>
        requires { ForSome (option_copied default) (λ t. fits form t ≡ true) }
        ensures value { Gives result (key_of self.now.place key.now (option_copied default.entry) (text form) (table_view self.now.members.now)) }
        ensures fits { IfOk result (λ t. fits form t ≡ true) }
    {
        let text = match member(self.members, key) {
            Some(value) => match read_text(value, form) {
                Ok(text) => text,
                Err(kind) => return Err(refusal(self.alloc, self.place, kind, key)),
            },
            None => match default {
                Some(text) => text,
                None => return Err(refusal(self.alloc, self.place, Kind::MissingKey, key)),
            },
        };
        Ok(Bytes::from_slice(self.alloc, text.as_bytes())?)
    }

    /// The address and port of a key, `a.b.c.d:port`.
    #[tactic(auto, unfolding(crate::specs::Rows::key_of))]
    pub(crate) fn address(
        &self,
        key: &str,
        default: Option<Address>,
    ) -> Result<Address, ConfigRefusal>
        ensures { Gives result (key_of self.now.place key.now default address_value (table_view self.now.members.now)) }
    {
        self.given(
            key,
            default,
            member(self.members, key).map(read_address_value),
        )
    }

    /// The host of a key, `a.b.c.d`.
    #[tactic(auto, unfolding(crate::specs::Rows::key_of))]
    pub(crate) fn host(&self, key: &str, default: Option<[u8; 4]>) -> Result<[u8; 4], ConfigRefusal>
        ensures { Gives result (key_of self.now.place key.now default host_value (table_view self.now.members.now)) }
    {
        self.given(key, default, member(self.members, key).map(read_host_value))
    }

    /// The status of a key, as an operator may give it.
    #[tactic(auto, unfolding(crate::specs::Rows::key_of))]
    pub(crate) fn status(
        &self,
        key: &str,
        default: Option<ServerStatus>,
    ) -> Result<ServerStatus, ConfigRefusal>
        ensures { Gives result (key_of self.now.place key.now default status_value (table_view self.now.members.now)) }
    {
        self.given(
            key,
            default,
            member(self.members, key).map(read_status_value),
        )
    }

    /// Yes or no, of a key that is 1 or 0.
    #[tactic(auto, unfolding(crate::specs::Rows::key_of))]
    pub(crate) fn switch(&self, key: &str, default: bool) -> Result<bool, ConfigRefusal>
        ensures { Gives result (key_of self.now.place key.now (Some default) switch_value (table_view self.now.members.now)) }
    {
        self.given(
            key,
            Some(default),
            member(self.members, key).map(read_switch_value),
        )
    }

    /// The number of a key in a range, None where the key isn't there.
    #[tactic(auto, unfolding(crate::specs::Rows::optional_key))]
    pub(crate) fn small_if_there(&self, key: &str) -> Result<Option<u16>, ConfigRefusal>
        ensures { Gives result (optional_key self.now.place key.now (number 0 65535) (table_view self.now.members.now)) }
    {
        match member(self.members, key) {
            Some(value) => match read_number(value, 0, 65_535) {
                Ok(n) => Ok(Some(n as u16)),
                Err(kind) => Err(refusal(self.alloc, self.place, kind, key)),
            },
            None => Ok(None),
        }
    }

    /// Yes or no, None where the key isn't there.
    #[tactic(auto, unfolding(crate::specs::Rows::optional_key))]
    pub(crate) fn switch_if_there(&self, key: &str) -> Result<Option<bool>, ConfigRefusal>
        ensures { Gives result (optional_key self.now.place key.now switch_value (table_view self.now.members.now)) }
    {
        self.given_if_there(key, member(self.members, key).map(read_switch_value))
    }

    /// The hash of a digest, None where the key isn't there.
    #[tactic(auto, unfolding(crate::specs::Rows::optional_key))]
    pub(crate) fn digest_if_there(&self, key: &str) -> Result<Option<u64>, ConfigRefusal>
        ensures { Gives result (optional_key self.now.place key.now digest_value (table_view self.now.members.now)) }
    {
        self.given_if_there(key, member(self.members, key).map(read_digest_value))
    }

    /// The text of a key, of a form, None where the key isn't there.
    #[tactic(auto, unfolding(crate::specs::Rows::optional_key))]
    pub(crate) fn text_if_there(
        &self,
        key: &str,
        form: TextForm,
    ) -> Result<Option<Bytes>, ConfigRefusal>
        ensures value { Gives result (optional_key self.now.place key.now (text form) (table_view self.now.members.now)) }
        ensures fits { IfOk result (λ t. AllFit form t) }
    {
        let text = match member(self.members, key) {
            Some(value) => match read_text(value, form) {
                Ok(text) => text,
                Err(kind) => return Err(refusal(self.alloc, self.place, kind, key)),
            },
            None => return Ok(None),
        };
        Ok(Some(Bytes::from_slice(self.alloc, text.as_bytes())?))
    }

    /// The pattern of a key, None where the key isn't there.
    pub(crate) fn pattern_if_there(&self, key: &str) -> Result<Option<Bytes>, ConfigRefusal>
        ensures value { (is_pattern : List ℕ → Bool) → Agrees is_pattern
            → Gives result (optional_key self.now.place key.now (pattern_value is_pattern) (table_view self.now.members.now)) }
        ensures fits { IfOk result (λ t. AllFit Any t) }
        ensures pattern { IfOk result (λ t. ArePatterns t) }
    {
        let text = self.text_if_there(key, TextForm::Any)?;
        match text {
            Some(text) => self.pattern(key, text),
            None => Ok(None),
        }
    }

    // The text of a key as a pattern.
    fn pattern(&self, key: &str, text: Bytes) -> Result<Option<Bytes>, ConfigRefusal>
        ensures value { (test : List ℕ → Bool) → Agrees test
            → Gives result (placed self.now.place key.now (if_there (Some (judged test (Ok text))))) }
        ensures same { IfOk result (λ t. t ≡ Some text) }
        ensures pattern { OnOk result (IsPattern text) }
    {
        let found = is_pattern(self.alloc, text.as_slice())?;
        if !found {
            return Err(refusal(self.alloc, self.place, Kind::BadPattern, key));
        }
        Ok(Some(text))
    }

    // What is given for a key, None where it isn't there, or why it can't be.
    fn given_if_there<T: Drop>(
        &self,
        key: &str,
        value: Option<Result<T, Kind>>,
    ) -> Result<Option<T>, ConfigRefusal>
        ensures { Gives result (placed self.now.place key.now (if_there value)) }
    {
        match value {
            None => Ok(None),
            Some(Ok(value)) => Ok(Some(value)),
            Some(Err(kind)) => Err(refusal(self.alloc, self.place, kind, key)),
        }
    }

    // What is given for a key, or its default, or why there is none.
    fn given<T: Drop>(
        &self,
        key: &str,
        default: Option<T>,
        value: Option<Result<T, Kind>>,
    ) -> Result<T, ConfigRefusal>
        ensures { Gives result (placed self.now.place key.now (or_default default value)) }
    {
        let given = match value {
            Some(given) => given,
            None => default.ok_or(Kind::MissingKey),
        };
        match given {
            Ok(value) => Ok(value),
            Err(kind) => Err(refusal(self.alloc, self.place, kind, key)),
        }
    }
}

// The least key that isn't known.
fn unknown_key<'a>(members: &'a Table, known: &[&str]) -> Option<&'a str>
    ensures { option_copied result ≡ least_unknown (map (λ k. k.now) known.now) (table_view members.now) }
{
    match first_unknown(members, known) {
        Some(key) => Some(key.as_str()),
        None => None,
    }
}

fn first_unknown<'a>(members: &'a Table, known: &[&str]) -> Option<&'a String>
    ensures first { option_copied result
        ≡ find (λ k. not (is_known (map (λ k. k.now) known.now) (string_bytes k))) (keys members.now) }
    ensures ascend { IsOrdered string_cmp members.now }
{
    members.keys().find(|key| !is_listed(known, key.as_str()))
}

fn is_listed(known: &[&str], key: &str) -> bool
    ensures { result ≡ is_known (map (λ k. k.now) known.now) key.now }
{
    known.contains(&key)
}

/// The row of a table that stands behind so many rows, and has no other keys than these.
#[tactic(auto, unfolding(crate::specs::Tables::row_at))]
pub(crate) fn row_behind<'a>(
    alloc: Global,
    table: TableName,
    before: usize,
    value: &'a Value,
    known: &[&str],
) -> Result<Row<'a>, ConfigRefusal>
    requires { before < 10000 }
    ensures { GivesRow result (at_row table (before + 1))
        (row_at (at_row table (before + 1)) (map (λ k. k.now) known.now) (view value.now)) }
{
    let place = Place {
        table,
        row: before as u32 + 1,
    };
    let members = row_table(alloc, place, value)?;
    let row = Row {
        alloc,
        place,
        members,
    };
    row.only(known)?;
    Ok(row)
}

/// The table that a row is.
#[tactic(auto, unfolding(crate::specs::Rows::table_at))]
pub(crate) fn row_table(alloc: Global, place: Place, value: &Value) -> Result<&Table, ConfigRefusal>
    ensures { GivesTable result (table_at place (view value.now)) }
{
    match value.as_table() {
        Some(members) => Ok(members),
        None => Err(refusal(alloc, place, Kind::WrongType, "")),
    }
}
