// The tables with their marks.
ghost use Rattle.std.specs.Prelude.{◌≡◌, ◌+◌, ◌^◌, ◌<◌, false, IfOk};
ghost use Rattle.mx_base.specs.declared.names.LinkId.{LinkId};
ghost use Rattle.core_tables.specs.Tables.{IsSame, no_tables, tables_of};
ghost use Rattle.link_marks.specs.Marks.{is_known};

use core_tables::Tables;
use link_marks::Marks;
use mx_base::OutOfMemory;
use std::alloc::Global;

/// The core's tables; and the links that are open, with marks of those at which the loop has to look again.
#[derive(Drop)]
pub struct MarkedTables {
    pub tables: Tables,
    pub changed: Marks,
}

impl MarkedTables {
    /// Nobody is there yet. There may be so many links.
    pub fn new(alloc: Global, most: u32) -> Result<Self, OutOfMemory>
        requires { most + 2 < 2 ^ 32 }
        ensures tables { IfOk result (λ marked. IsSame (tables_of marked.tables) no_tables) }
        ensures known { IfOk result (λ marked. (link : LinkId) → is_known marked.changed link ≡ false) }
    {
        Ok(MarkedTables {
            tables: Tables::new(alloc),
            changed: Marks::new(alloc, most)?,
        })
    }
}
