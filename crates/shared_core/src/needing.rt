// Texts that were prepared, and who needs them.
ghost use Rattle.std.specs.Prelude.{◌≡◌, ◌||◌, ℕ, IfOk, IsTrue, OnOk, Some, nat_eq, true};
ghost use Rattle.std.specs.HashSet.{contains};
ghost use Rattle.std.specs.Option.{option_and_then, option_copied};
ghost use Rattle.mx_base.specs.declared.names.ClientNo.{ClientNo};
ghost use Rattle.session_vars.specs.Settings.{AreSettings, is_text, value_at};
ghost use Rattle.client_desk.specs.declared.work.Work.{Work};
ghost use Rattle.core_tables.specs.Tables.{tables_of};
ghost use Rattle.core_tables.specs.declared.client.Client.{Client};
ghost use Rattle.core_tables.specs.declared.server.Server.{Server};
ghost use Rattle.core_texts.specs.Texts.{AreLess, HasBegun, key_at};
ghost use Rattle.router_laws.specs.decisions.Held.{KeepsTexts};
ghost use Rattle.shared_core.specs.Needed.{have_prepared, needs, works_on};
ghost use Rattle.shared_core.specs.Rows.{IsToldPlace, work_at};
ghost use Rattle.shared_core.specs.Stands.{tables};

use crate::router::Router;
use crate::rows::{row_of, server_of, work_of};
use client_desk::Work;
use core_tables::{Client, Server, Tables};
use core_texts::{Kept, Texts};
use link_state::Wish;
use mx_base::{ClientNo, LinkId, OutOfMemory};
use session_state::{Place, SessionName};
use session_vars::{Settings, Slot};
use std::alloc::Global;
use std::collections::HashSet;
use stmt_map::ClientStatements;

/// What is kept of the text of a client's execute in work.
pub(crate) fn text_of_work<'a>(
    tables: &Tables,
    texts: &'a Texts,
    client: ClientNo,
) -> Option<&'a Kept>
    ensures { option_copied result ≡ option_and_then (λ (work : Work). key_at texts.now work.key) (work_at client (tables_of tables.now)) }
{
    match work_of(tables, client) {
        Some(work) => texts.find(work.key),
        None => None,
    }
}

fn has_names(settings: &Settings) -> bool
    ensures names { result ≡ true → IsTrue (is_text (value_at settings.now Slot.Names)) }
    ensures settings { AreSettings settings.now }
{
    settings.value(Slot::Names).is_text()
}

fn is_prepare(wish: &Wish) -> bool
    ensures { result ≡ true → wish.now ≡ Wish.Prepare }
{
    match wish {
        Wish::Prepare => true,
        _ => false,
    }
}

// Whether its text is to be prepared next on the link of this row, which was told the place of that.
fn is_to_prepare(
    alloc: Global,
    server: &Server,
    row: &Client,
    name: SessionName,
    of_key: &Place,
) -> Result<bool, OutOfMemory>
    ensures { IfOk result (λ is. is ≡ true → IsToldPlace of_key.now server.now.row.link.state.told) }
{
    let place = &row.desk.seat.place;
    let Some(work) = &row.desk.work else {
        return Ok(false);
    };
    let of_text = has_names(&of_key.settings);
    let of_link = has_names(&server.row.link.state.told.settings);
    if !(has_names(&place.settings) && of_text && of_link) {
        return Ok(false);
    }
    let wanted = work.wanted(row.desk.session(name.hostgroup).id);
    let wish = server.row.wish(alloc, wanted, place, of_key)?;
    Ok(is_prepare(&wish))
}

/// Whether the text of a client's execute, which was prepared at this place, is to be prepared next on a link: it isn't there, and the link
/// was told that place.
pub(crate) fn wants_prepared(
    alloc: Global,
    tables: &Tables,
    link: LinkId,
    name: SessionName,
    of_key: &Place,
) -> Result<bool, OutOfMemory>
    ensures { IfOk result (λ wants. wants ≡ true → (server : Server) → (tables_of tables.now).links link ≡ Some server
        → IsToldPlace of_key.now server.row.link.state.told) }
{
    let Some(server) = server_of(tables, link) else {
        return Ok(false);
    };
    match row_of(tables, name.client) {
        Some(row) => is_to_prepare(alloc, server, row, name, of_key),
        None => Ok(false),
    }
}

fn add_work(work: &Option<Work>, needed: &mut HashSet<u64>) -> Result<(), OutOfMemory>
    ensures { OnOk result ((number : ℕ) → contains nat_eq needed.new number ≡ (contains nat_eq needed.old number || works_on work.now number)) }
{
    if let Some(work) = work {
        needed.insert(work.key)?;
    }
    Ok(())
}

fn add_statements(
    statements: &ClientStatements,
    needed: &mut HashSet<u64>,
) -> Result<(), OutOfMemory>
    ensures { OnOk result ((number : ℕ) → contains nat_eq needed.new number ≡ (contains nat_eq needed.old number || have_prepared statements.now number)) }
{
    for statement in statements.statements.values() {
        needed.insert(statement.prepared.key)?;
    }
    Ok(())
}

// The texts that a client needs: of its statement in work, and of what it has prepared.
fn add_needed(row: &Client, needed: &mut HashSet<u64>) -> Result<(), OutOfMemory>
    ensures { OnOk result ((number : ℕ) → contains nat_eq needed.new number ≡ (contains nat_eq needed.old number || needs row.now number)) }
{
    add_work(&row.desk.work, needed)?;
    add_statements(&row.desk.seat.statements, needed)
}

fn add_clients(tables: &Tables, needed: &mut HashSet<u64>) -> Result<(), OutOfMemory>
    ensures { OnOk result ((client : ClientNo) (row : Client) (number : ℕ) → (tables_of tables.now).clients client ≡ Some row → needs row number ≡ true
        → contains nat_eq needed.new number ≡ true) }
{
    for row in tables.clients.values() {
        add_needed(row, needed)?;
    }
    Ok(())
}

// Those that are prepared on links.
fn add_links(tables: &Tables, needed: &mut HashSet<u64>) -> Result<(), OutOfMemory>
    ensures { OnOk result ((number : ℕ) → contains nat_eq needed.old number ≡ true → contains nat_eq needed.new number ≡ true) }
{
    for server in tables.links.values() {
        server.row.link.state.live.add_keys(needed)?;
    }
    Ok(())
}

impl Router {
    // Texts that nobody needs are forgotten, once there are many: none of a client's statement in work, or of what it prepared.
    #[tactic(auto, using(crate::proofs::Needed::keeps_itself))]
    fn forgets_texts(&mut self) -> Result<(), OutOfMemory>
        ensures less { OnOk result (AreLess self.old.texts self.new.texts) }
        ensures kept { OnOk result (KeepsTexts self.old.texts self.new.texts (tables self.old)) }
        ensures same { OnOk result (self.new ≡ record self.old { texts = self.new.texts }) }
    {
        if !self.texts.is_crowded() {
            return Ok(());
        }
        let mut needed = HashSet::new(self.alloc);
        add_clients(&self.marked.tables, &mut needed)?;
        add_links(&self.marked.tables, &mut needed)?;
        self.texts.keep_only(&needed)
    }

    /// An event begins: texts that nobody needs are forgotten, and notes of clients that are no more, and the texts that are left have come before it.
    pub(crate) fn begins(&mut self) -> Result<(), OutOfMemory>
        ensures less { OnOk result (AreLess self.old.texts self.new.texts) }
        ensures kept { OnOk result (KeepsTexts self.old.texts self.new.texts (tables self.old)) }
        ensures same { OnOk result (self.new ≡ record self.old { texts = self.new.texts }) }
        ensures begun { OnOk result (HasBegun self.new.texts) }
    {
        self.forgets_texts()?;
        self.drops_notes()?;
        self.texts.begin();
        Ok(())
    }
}
