// A client's prepared statements.
ghost use Rattle.std.specs.Prelude.{◌≡◌, ◌+◌, ◌^◌, ◌<◌, ℕ, None, Some, is_some, OnOk, OnErr, IfOk};
ghost use Rattle.std.specs.Option.{option_copied, option_map};
ghost use Rattle.stmt_map.specs.Client.{Changes, fresh, long_at, next_number, statement_at, used_up, with_long, with_types};

use crate::long::{LongData, LongFault};
use crate::statement::{AddFault, Prepared, Statement};
use mx_base::{Bytes, OutOfMemory};
use session_vars::LongPart;
use std::alloc::Global;
use std::collections::HashMap;
use std::mem;

/// How many statements a client has at most.
pub const MOST_STATEMENTS: usize = 65_535;

/// A client's prepared statements by their numbers, which count from 1 and are given once; and how many bytes of long data they have in all.
#[derive(Drop)]
pub struct ClientStatements {
    pub last: u32,
    pub statements: HashMap<u32, Statement>,
    pub long: u64,
}

// How many bytes of long data a statement has.
fn size_of(statement: Option<&Statement>) -> u64 {
    match statement {
        Some(statement) => statement.long.size(),
        None => 0,
    }
}

impl ClientStatements {
    /// None yet.
    pub fn new(alloc: Global) -> Self
        ensures last { result.last ≡ 0 }
        ensures none { (number : ℕ) → statement_at result number ≡ None }
    {
        ClientStatements {
            last: 0,
            statements: HashMap::new(alloc),
            long: 0,
        }
    }

    /// The number that the next statement gets. None where the client has as many as it may, or all numbers were given.
    pub fn next_number(&self) -> Option<u32>
        ensures { result ≡ next_number self.now }
    {
        if self.statements.len() >= MOST_STATEMENTS || self.last == u32::MAX {
            None
        } else {
            Some(self.last + 1)
        }
    }

    /// Keeps a statement under the next number, with no types bound and no long data.
    pub fn add(&mut self, alloc: Global, prepared: Prepared) -> Result<u32, AddFault>
        ensures number { IfOk result (λ number. next_number self.old ≡ Some number) }
        ensures last { IfOk result (λ number. self.new.last ≡ number) }
        ensures added { IfOk result (λ number. Changes self.old self.new number (Some (fresh prepared))) }
    {
        let Some(number) = self.next_number() else {
            return Err(AddFault::Full);
        };
        let statement = Statement {
            prepared,
            types: None,
            long: LongData::new(alloc),
        };
        self.statements
            .insert(number, statement)
            .map_err(|_| OutOfMemory)?;
        self.last = number;
        Ok(number)
    }

    /// The statement of a number.
    pub fn find(&self, number: u32) -> Option<&Statement>
        ensures { option_copied result ≡ statement_at self.now number }
    {
        self.statements.get(&number)
    }

    /// An execute binds types. Nothing changes where the number is unknown.
    pub fn bind(&mut self, alloc: Global, number: u32, types: &[u8]) -> Result<(), OutOfMemory>
        ensures bound { OnOk result (Changes self.old self.new number (option_map (with_types types.now) (statement_at self.old number))) }
        ensures last { OnOk result (self.new.last ≡ self.old.last) }
    {
        let types = Bytes::from_slice(alloc, types)?;
        if let Some(statement) = self.statements.get_mut(&number) {
            statement.types = Some(types);
        }
        Ok(())
    }

    /// Long data comes for a parameter. Nothing changes where the number is unknown. `most` is how many bytes a statement may have.
    pub fn append_long(
        &mut self,
        alloc: Global,
        number: u32,
        parameter: u16,
        bytes: &[u8],
        most: u64,
    ) -> Result<(), LongFault>
        ensures appended { OnOk result (Changes self.old self.new number (option_map (with_long parameter bytes.now) (statement_at self.old number))) }
        ensures last { OnOk result (self.new.last ≡ self.old.last) }
    {
        if let Some(statement) = self.statements.get_mut(&number) {
            statement.long.append(alloc, parameter, bytes, most)?;
            self.long = self.long.saturating_add(bytes.len() as u64);
        }
        Ok(())
    }

    /// The long data are forgotten.
    pub fn use_up(&mut self, alloc: Global, number: u32)
        ensures used { Changes self.old self.new number (option_map used_up (statement_at self.old number)) }
        ensures last { self.new.last ≡ self.old.last }
    {
        if let Some(statement) = self.statements.get_mut(&number) {
            self.long = self.long.saturating_sub(statement.long.size());
            statement.long = LongData::new(alloc);
        }
    }

    /// An execute takes the long data, whatever its answer.
    pub fn take_long(&mut self, alloc: Global, number: u32) -> Vec<LongPart>
        ensures parts { result.items ≡ long_at (statement_at self.old number) }
        ensures used { Changes self.old self.new number (option_map used_up (statement_at self.old number)) }
        ensures last { self.new.last ≡ self.old.last }
    {
        match self.statements.get_mut(&number) {
            Some(statement) => {
                self.long = self.long.saturating_sub(statement.long.size());
                let long = mem::replace(&mut statement.long, LongData::new(alloc));
                long.into_parts()
            }
            None => Vec::new(alloc),
        }
    }

    /// A statement is closed. False where the number is unknown.
    pub fn close(&mut self, number: u32) -> bool
        ensures known { result ≡ is_some (statement_at self.old number) }
        ensures closed { Changes self.old self.new number None }
        ensures last { self.new.last ≡ self.old.last }
    {
        let size = size_of(self.statements.get(&number));
        self.long = self.long.saturating_sub(size);
        self.statements.remove(&number).is_some()
    }

    /// The client starts anew: all are closed, and numbers go on.
    pub fn clear(&mut self)
        ensures last { self.new.last ≡ self.old.last }
        ensures none { (number : ℕ) → statement_at self.new number ≡ None }
    {
        self.long = 0;
        self.statements.clear();
    }
}
