// Clients that have room again.
ghost use Rattle.std.specs.Prelude.{◌≡◌, false, true};
ghost use Rattle.private_model.specs.Names.{ClientNo};
ghost use Rattle.shared_core.specs.Stands.{is_roomy};

use mx_base::ClientNo;
use std::alloc::Global;
use std::collections::BTreeSet;

/// Clients that are called at the next wake, since their messages may be taken up again: these, or each that there is, where there was no
/// memory to note one.
#[derive(Drop)]
pub struct Roomy {
    pub some: BTreeSet<u64>,
    pub all: bool,
}

impl Roomy {
    /// Nobody. Takes no memory.
    pub fn new(alloc: Global) -> Self
        ensures { (c : ClientNo) → is_roomy result c ≡ false }
    {
        Roomy {
            some: BTreeSet::new(alloc),
            all: false,
        }
    }

    /// So is this one.
    pub fn add(&mut self, client: ClientNo)
        ensures added { is_roomy self.new client ≡ true }
        ensures kept { (c : ClientNo) → is_roomy self.old c ≡ true → is_roomy self.new c ≡ true }
    {
        match self.some.insert(client.0) {
            Ok(_) => {}
            Err(_) => self.all = true,
        }
    }

    /// Whether nobody is.
    pub fn is_empty(&self) -> bool {
        self.some.is_empty() && !self.all
    }
}
