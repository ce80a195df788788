// The numbers of servers.
ghost use Rattle.std.specs.Prelude.{◌≡◌, ◌<◌, ◌++◌, ◌∷◌, [], length, None, OnOk, OnErr};
ghost use Rattle.hostgroups.specs.Keys.{named};
ghost use Rattle.hostgroups.specs.Rows.{number_of};

use crate::ServerName;
use mx_base::{Hostgroup, OutOfMemory, ServerId};
use std::alloc::Global;
use std::collections::HashMap;
use std::marker::Model;

// A server's name, as the keys of a map are.
#[derive(Clone, Copy, PartialEq, Eq, Hash)]
struct NameKey {
    hostgroup: Hostgroup,
    ip: [u8; 4],
    port: u16,
}

/// The numbers that servers were given, which contracts see as the list of their names: the first has the number 1.
/// Takes memory in proportion to the names, and finds a number in the time of a look-up in a map.
#[derive(Drop)]
pub struct ServerNumbers {
    names: Vec<ServerName>,
    numbers: HashMap<NameKey, ServerId>,
}

impl Model for ServerNumbers {
    ghost use Rattle.std.specs.Prelude.{List};
    ghost use Rattle.hostgroups.specs.declared.row.ServerName.{ServerName};

    ghost Value = { List ServerName };

    ghost view = { λ n. n.names.items };

    ghost use Rattle.hostgroups.specs.Keys.{AreNumbers};

    ghost invariant = { λ n. AreNumbers n.names.items n.numbers };
}

impl ServerNumbers {
    /// No number was given. Takes no memory.
    pub fn new(alloc: Global) -> Self
        ensures { result ≡ [] }
    {
        ServerNumbers {
            names: Vec::new(alloc),
            numbers: HashMap::new(alloc),
        }
    }

    /// The number of a server, None exactly where it has none.
    pub fn number(&self, name: ServerName) -> Option<ServerId>
        ensures { result ≡ number_of self.now name }
    {
        self.numbers.get(&key(name)).copied()
    }

    /// Gives a server the next number.
    pub fn add(&mut self, name: ServerName) -> Result<(), OutOfMemory>
        requires new { number_of self.old name ≡ None }
        requires room { length self.old < 65535 }
        ensures ok { OnOk result (self.new ≡ self.old ++ name ∷ []) }
        ensures err { OnErr result (self.new ≡ self.old) }
    {
        self.names.reserve(1)?;
        let number = ServerId(self.names.len() as u16 + 1);
        self.numbers.insert(key(name), number)?;
        self.names.push(name)?;
        Ok(())
    }

    /// Puts a name behind the others: it has the next number, unless it had one before.
    pub fn append(&mut self, name: ServerName) -> Result<(), OutOfMemory>
        requires { length self.old < 65535 }
        ensures ok { OnOk result (self.new ≡ self.old ++ name ∷ []) }
        ensures err { OnErr result (self.new ≡ self.old) }
    {
        match self.number(name) {
            Some(_) => {
                self.names.push(name)?;
                Ok(())
            }
            None => self.add(name),
        }
    }
}

fn key(name: ServerName) -> NameKey
    ensures { named result ≡ name }
{
    let ip = name.address.ip;
    NameKey {
        hostgroup: name.hostgroup,
        ip,
        port: name.address.port,
    }
}
