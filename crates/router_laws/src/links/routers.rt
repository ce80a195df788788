// A router goes on as links to servers are opened, written on and closed.
ghost use Rattle.std.specs.Prelude.{◌≡◌, Bool, List, false, take, ℕ};
ghost use Rattle.mx_base.specs.Sent as offers;
ghost use Rattle.mx_base.specs.declared.names.Address.{Address};
ghost use Rattle.mx_wire.specs.Log.{Log};
ghost use Rattle.mx_wire.specs.Tells.{MayFollow};
ghost use Rattle.mx_wire.specs.declared.entry.Entry.TheVariants.{Closed, Opened, Wrote};
ghost use Rattle.server_side.specs.Account.{Account};
ghost use Rattle.core_service.specs.declared.service.Service.{Service};
ghost use Rattle.core_texts.specs.declared.texts.Texts.{Texts};
ghost use Rattle.private_model.specs.Names.{ClientNo, LinkId, ServerId};
ghost use Rattle.core_tables.specs.Tables.{Tabled};
ghost use Rattle.core_laws.specs.entry.Cores.{with_entry};
ghost use Rattle.core_promises.specs.Administers.{Administered};
ghost use Rattle.router_laws.specs.decisions.Routers.{IsRouter};
ghost use Rattle.router_laws.specs.links.Closes.{ClosesSo};
ghost use Rattle.router_laws.specs.links.Opens.{OpensSo};
ghost use Rattle.router_laws.specs.links.Writes.{WritesSo};

use crate::links::closing::closes_go;
use crate::links::nobodys::{opens_go, writes_go};

/// A link to a server is opened.
pub fn opens_router()
    ensures { (service : Service) (texts : Texts) (admin : Administered) (log : Log) (t now : Tabled) (roomy : ClientNo → Bool) (server : ServerId) (address : Address)
        (l : LinkId) (login : Account) → IsRouter service texts admin log t roomy → MayFollow log (Opened server address l)
        → OpensSo l server login t now → IsRouter service texts admin (with_entry log (Opened server address l)) now roomy }
{
    opens_go();
}

/// Bytes of what the tables lend are written on a link to a server.
pub fn writes_router()
    ensures { (service : Service) (texts : Texts) (admin : Administered) (log : Log) (t now : Tabled) (roomy : ClientNo → Bool) (l : LinkId) (offer : offers.Sent)
        (count : ℕ) → IsRouter service texts admin log t roomy → MayFollow log (Wrote l offer.tag (take count offer.bytes)) → WritesSo l offer count t now
        → IsRouter service texts admin (with_entry log (Wrote l offer.tag (take count offer.bytes))) now roomy }
{
    writes_go();
}

/// A link to a server is closed, and forgotten.
pub fn closes_router()
    ensures { (service : Service) (texts : Texts) (admin : Administered) (log : Log) (t now : Tabled) (roomy room : ClientNo → Bool) (l : LinkId)
        → IsRouter service texts admin log t roomy → MayFollow log (Closed l) → ((c : ClientNo) → room c ≡ false → roomy c ≡ false)
        → ClosesSo l room t now → IsRouter service texts admin (with_entry log (Closed l)) now room }
{
    closes_go();
}
