// The prepared statements of a link with long data.
ghost use Rattle.std.specs.Prelude.{◌≡◌, ◌∷◌, [], not, nat_eq, IfOk};
ghost use Rattle.served_link.specs.Numbers.{without};

use mx_base::OutOfMemory;
use std::alloc::Global;
use std::marker::Model;

/// The numbers of the prepared statements of a link for which long data were sent, the last first. A contract sees the list of these.
#[derive(Drop)]
pub struct LongNumbers {
    items: Vec<u32>,
}

impl Model for LongNumbers {
    ghost use Rattle.std.specs.Prelude.{List, ℕ};

    ghost Value = { List ℕ };

    ghost view = { λ n. n.items.items };
}

impl LongNumbers {
    /// None yet. Takes no memory.
    pub fn new(alloc: Global) -> Self
        ensures { result ≡ [] }
    {
        LongNumbers {
            items: Vec::new(alloc),
        }
    }

    /// All of them.
    pub fn as_slice(&self) -> &[u32]
        ensures { result.now ≡ self.now }
    {
        &self.items
    }

    /// What has this number has no long data any more. Takes no memory.
    pub fn remove(&mut self, number: u32)
        ensures { self.new ≡ without number self.old }
    {
        self.items.retain(
            |at: &u32| -> bool
                ensures { result ≡ not (nat_eq at.now number) }
            { *at != number },
        );
    }

    /// They and this one.
    pub fn with(&self, alloc: Global, number: u32) -> Result<Self, OutOfMemory>
        ensures { IfOk result (λ all. all ≡ number ∷ without number self.now) }
    {
        let mut all = LongNumbers {
            items: Vec::from_slice(alloc, &self.items)?,
        };
        all.remove(number);
        all.items.insert(0, number)?;
        Ok(all)
    }
}
