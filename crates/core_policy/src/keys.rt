// The keys of links, and what links were told.

use crate::slots::number_of;
use mx_base::{Bytes, Hostgroup, OutOfMemory};
use number_table::NumberTable;
use place_keys::place_key;
use session_vars::Settings;
use std::alloc::Global;

/// What links and those who wait for one have in common: a hostgroup, an account, whether they stand in no schema, and whether the link is one
/// that never served anybody (`fresh`): who is served there is its last.
#[derive(Clone, Copy)]
pub struct LinkKey<'a> {
    pub hostgroup: Hostgroup,
    pub user: &'a [u8],
    pub found_rows: bool,
    pub bare: bool,
    pub fresh: bool,
}

// A key that is kept, and how many have it beside those for whom its bytes were taken.
#[derive(Drop)]
struct KeyRow {
    hostgroup: Hostgroup,
    user: Bytes,
    found_rows: bool,
    bare: bool,
    fresh: bool,
    others: u32,
}

/// The number of a key with what links of it were told, and which of all that had this number it is.
#[derive(Clone, Copy)]
pub struct Spot {
    pub number: u32,
    pub since: u64,
}

// How many links have a number, and since which of all that were taken.
#[derive(Clone, Copy)]
struct SpotRow {
    since: u64,
    links: u32,
}

/// Numbers of keys, and of a key with what links of it were told.
#[derive(Drop)]
pub struct Keys {
    alloc: Global,
    keys: NumberTable<Bytes>,
    rows: Vec<Option<KeyRow>>,
    spots: NumberTable<Bytes>,
    spot_rows: Vec<SpotRow>,
    taken: u64,
}

// The bytes that a key goes by.
fn bytes_of(alloc: Global, key: &LinkKey) -> Result<Bytes, OutOfMemory> {
    let mut bytes = Vec::new(alloc);
    bytes.push((key.hostgroup.0 % 256) as u8)?;
    bytes.push((key.hostgroup.0 / 256) as u8)?;
    bytes.push(if key.found_rows { 1 } else { 0 })?;
    bytes.push(if key.bare { 1 } else { 0 })?;
    bytes.push(if key.fresh { 1 } else { 0 })?;
    bytes.extend_from_slice(key.user)?;
    Ok(Bytes::from_vec(bytes))
}

// The bytes that a key goes by with what was told.
fn spot_of(
    alloc: Global,
    key: u32,
    schema: &[u8],
    settings: &Settings,
) -> Result<Bytes, OutOfMemory> {
    let mut spot = Vec::new(alloc);
    spot.push((key % 256) as u8)?;
    spot.push((key / 256 % 256) as u8)?;
    spot.push((key / 65536 % 256) as u8)?;
    spot.push((key / 16777216 % 256) as u8)?;
    let place = place_key(alloc, schema, settings)?;
    spot.extend_from_slice(place.as_slice())?;
    Ok(Bytes::from_vec(spot))
}

// The row of a key.
fn row_of(alloc: Global, key: &LinkKey) -> Result<KeyRow, OutOfMemory> {
    Ok(KeyRow {
        hostgroup: key.hostgroup,
        user: Bytes::from_slice(alloc, key.user)?,
        found_rows: key.found_rows,
        bare: key.bare,
        fresh: key.fresh,
        others: 0,
    })
}

impl KeyRow {
    fn key(&self) -> LinkKey<'_> {
        LinkKey {
            hostgroup: self.hostgroup,
            user: self.user.as_slice(),
            found_rows: self.found_rows,
            bare: self.bare,
            fresh: self.fresh,
        }
    }
}

impl LinkKey<'_> {
    // The same key.
    fn is(&self, other: &LinkKey) -> bool {
        self.hostgroup.0 == other.hostgroup.0
            && self.found_rows == other.found_rows
            && self.bare == other.bare
            && self.fresh == other.fresh
            && self.user == other.user
    }
}

impl Keys {
    /// None yet. There may be so many.
    pub fn new(alloc: Global, most: u32) -> Self {
        Keys {
            alloc,
            keys: NumberTable::new(alloc, most),
            rows: Vec::new(alloc),
            spots: NumberTable::new(alloc, most),
            spot_rows: Vec::new(alloc),
            taken: 0,
        }
    }

    /// One more is of this key. It answers the key's number, where there is one more.
    pub fn take(&mut self, key: &LinkKey) -> Result<Option<u32>, OutOfMemory> {
        let bytes = bytes_of(self.alloc, key)?;
        let Some(number) = number_of(self.keys.take(bytes))? else {
            return Ok(None);
        };
        if self.row(number).is_none() {
            let row = row_of(self.alloc, key)?;
            self.put(number, row)?;
        }
        Ok(Some(number))
    }

    // The row of a number.
    fn put(&mut self, number: u32, row: KeyRow) -> Result<(), OutOfMemory> {
        let place = number as usize;
        for _ in 0..u32::MAX {
            if place < self.rows.len() {
                break;
            }
            self.rows.push(None)?;
        }
        if let Some(there) = self.rows.get_mut(place) {
            *there = Some(row);
        }
        Ok(())
    }

    /// One more is of the key of this number.
    pub fn hold(&mut self, number: u32) {
        if let Some(Some(row)) = self.rows.get_mut(number as usize) {
            row.others = row.others.saturating_add(1);
        }
    }

    /// The key of a number.
    pub fn row(&self, number: u32) -> Option<LinkKey<'_>> {
        match self.rows.get(number as usize) {
            Some(Some(row)) => Some(row.key()),
            _ => None,
        }
    }

    /// Whether a number is that of this key.
    pub fn is(&self, number: u32, key: &LinkKey) -> bool {
        match self.row(number) {
            Some(row) => row.is(key),
            None => false,
        }
    }

    /// One less is of the key of this number.
    pub fn leave(&mut self, number: u32) {
        let Some(there) = self.rows.get_mut(number as usize) else {
            return;
        };
        if let Some(row) = there {
            if row.others > 0 {
                row.others -= 1;
                return;
            }
        }
        self.keys.leave(number);
        if self.keys.key(number).is_none() {
            *there = None;
        }
    }

    /// A link of a key was told this. It answers the number of both, where there is one more.
    pub fn take_spot(
        &mut self,
        key: u32,
        schema: &[u8],
        settings: &Settings,
    ) -> Result<Option<u32>, OutOfMemory> {
        let spot = spot_of(self.alloc, key, schema, settings)?;
        let Some(number) = number_of(self.spots.take(spot))? else {
            return Ok(None);
        };
        self.counts(number)?;
        Ok(Some(number))
    }

    // One link more has this number.
    fn counts(&mut self, number: u32) -> Result<(), OutOfMemory> {
        let place = number as usize;
        for _ in 0..u32::MAX {
            if place < self.spot_rows.len() {
                break;
            }
            self.spot_rows.push(SpotRow { since: 0, links: 0 })?;
        }
        let Some(row) = self.spot_rows.get_mut(place) else {
            return Ok(());
        };
        if row.links == 0 {
            self.taken = self.taken.saturating_add(1);
            row.since = self.taken;
        }
        row.links = row.links.saturating_add(1);
        Ok(())
    }

    /// The number of a key with what was told, where a link has it.
    pub fn spot(
        &self,
        key: u32,
        schema: &[u8],
        settings: &Settings,
    ) -> Result<Option<Spot>, OutOfMemory> {
        let spot = spot_of(self.alloc, key, schema, settings)?;
        let Some(number) = self.spots.find(&spot) else {
            return Ok(None);
        };
        match self.spot_rows.get(number as usize) {
            Some(row) => Ok(Some(Spot {
                number,
                since: row.since,
            })),
            None => Ok(None),
        }
    }

    /// Whether a link has it still.
    pub fn has_spot(&self, spot: Spot) -> bool {
        match self.spot_rows.get(spot.number as usize) {
            Some(row) => row.links > 0 && row.since == spot.since,
            None => false,
        }
    }

    /// A link has this number no more.
    pub fn leave_spot(&mut self, number: u32) {
        if let Some(row) = self.spot_rows.get_mut(number as usize) {
            row.links = row.links.saturating_sub(1);
        }
        self.spots.leave(number);
    }
}
