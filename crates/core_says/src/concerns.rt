// Which links a change of one row concerns.
ghost use Rattle.std.specs.Prelude.{◌≡◌, Option, Some, false, nat_eq};
ghost use Rattle.mx_base.specs.declared.names.ClientNo.{ClientNo};
ghost use Rattle.mx_base.specs.declared.names.LinkId.{LinkId};
ghost use Rattle.core_says.specs.Says.{IsApart, IsQuieter};
ghost use Rattle.core_tables.specs.Tables.{IsSame, Tabled, client_put, link_put, number_put};
ghost use Rattle.core_tables.specs.declared.client.Client.{Client};
ghost use Rattle.core_tables.specs.declared.server.Server.{Server};

/// A change of a client's row concerns only the client's own link, and those that the row names, before or behind it. One of a link's row, or of
/// whose link that is, concerns that link alone.
pub fn changes_concern()
    ensures client { (t : Tabled) (c : ClientNo) (row : Option Client) (link : LinkId) → IsApart t c row link → IsQuieter t (client_put c row t) link }
    ensures server { (t : Tabled) (l : LinkId) (row : Option Server) (link : LinkId) → nat_eq l.0 link.0 ≡ false → IsQuieter t (link_put l row t) link }
    ensures number { (t : Tabled) (l : LinkId) (c : Option ClientNo) (link : LinkId) → nat_eq l.0 link.0 ≡ false → IsQuieter t (number_put l c t) link }
{}

/// What is quieter than what is quieter is, and what is the same is.
pub fn quieter_goes_on()
    ensures along { (a b c : Tabled) (link : LinkId) → IsQuieter a b link → IsQuieter b c link → IsQuieter a c link }
    ensures same { (a b : Tabled) (link : LinkId) → IsSame b a → IsQuieter a b link }
{}
