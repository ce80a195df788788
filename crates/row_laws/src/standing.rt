// A row stands for its link as a link opens, and as what isn't read or written there happens.
ghost use Rattle.std.specs.Prelude.{◌≡◌, ℕ, true, None, Option, Some};
ghost use Rattle.mx_base.specs.declared.names.Address.{Address};
ghost use Rattle.mx_wire.specs.declared.entry.Entry.TheVariants.{Opened};
ghost use Rattle.private_model.specs.Names.{ClientNo, LinkId, ServerId, SessionName};
ghost use Rattle.private_model.specs.Story.{Freed, Gone, Happening, Left, Ran};
ghost use Rattle.private_model.specs.View.{Setup, View, no_link, view_step};
ghost use Rattle.log_story.specs.Plan.{Plan};
ghost use Rattle.log_story.specs.Tale.{Tale, tell, view_of};
ghost use Rattle.log_story.specs.Telling.{told};
ghost use Rattle.link_laws.specs.Stands.{Codes};
ghost use Rattle.link_state.specs.Dones.{is_quiet};
ghost use Rattle.served_link.specs.Rows.{freed, left_by, lost, new_row};
ghost use Rattle.served_link.specs.declared.row.LeftSession.{LeftSession};
ghost use Rattle.served_link.specs.declared.row.Opening.{Opening};
ghost use Rattle.served_link.specs.declared.row.Row.{Row};
ghost use Rattle.row_laws.specs.Apart.{IsElsewhere, IsSpared};
ghost use Rattle.row_laws.specs.Rows.{IsRowIn};
ghost use Rattle.row_laws.specs.Whose.{IsHolder, IsKept, IsUntouched, name_in};

/// The row of a link that was opened stands for it.
pub fn rows_open()
    ensures { (setup : Setup) (codes : Codes) (plan : Plan) (tale : Tale) (server : ServerId) (address : Address) (l : LinkId)
        (opening : Opening) (now : ℕ) → (view_of setup tale).links l ≡ no_link → opening.server ≡ server
        → IsRowIn setup codes plan (told setup plan tale (Opened server address l)) l (new_row opening (plan.logins l) now) }
{}

/// A row stands for its link as long as the link's wire, the law's link and what is kept of its session stay.
pub fn rows_stay()
    ensures { (setup : Setup) (codes : Codes) (plan : Plan) (old new : Tale) (l : LinkId) (row : Row) → IsRowIn setup codes plan old l row
        → new.wires l ≡ old.wires l → (view_of setup new).links l ≡ (view_of setup old).links l
        → ((n : SessionName) → name_in row.link.state.carries ≡ Some n → IsUntouched (view_of setup old) (view_of setup new) n row.left)
        → IsRowIn setup codes plan new l row }
{}

/// What names neither a link nor its session leaves both: the law's link is the same, and so is what is kept of the session.
pub fn others_are_spared()
    ensures links { (setup : Setup) (seen : View) (e : Happening) (l : LinkId) → IsElsewhere l e → (view_step setup seen e).links l ≡ seen.links l }
    ensures sessions { (setup : Setup) (seen : View) (n : SessionName) (e : Happening) (left : Option LeftSession) → IsHolder seen n left
        → IsSpared seen e n left → IsUntouched seen (view_step setup seen e) n left }
{}

/// What stands on a link may run before a byte of its answer is read: the row stands for the link as it is.
pub fn rows_run_unseen()
    ensures { (setup : Setup) (codes : Codes) (plan : Plan) (tale : Tale) (l : LinkId) (row : Row) → IsRowIn setup codes plan tale l row
        → IsRowIn setup codes plan (tell (Ran l) tale) l row }
{}

/// A link on which nothing stands is given back.
pub fn rows_are_freed()
    ensures { (setup : Setup) (codes : Codes) (plan : Plan) (tale : Tale) (l : LinkId) (row : Row) → (tale.wires l).entered ≡ true
        → is_quiet row.link.state.stage ≡ true → IsRowIn setup codes plan tale l row → IsRowIn setup codes plan (tell (Freed l) tale) l (freed row) }
{}

/// A link is lost.
pub fn rows_are_lost()
    ensures { (setup : Setup) (codes : Codes) (plan : Plan) (tale : Tale) (l : LinkId) (row : Row) → IsRowIn setup codes plan tale l row
        → IsRowIn setup codes plan (tell (Gone l) tale) l (lost row) }
{}

/// The client leaves whose present session a link carries: what is kept of that is what the router knew of it.
pub fn rows_are_left()
    ensures { (setup : Setup) (codes : Codes) (plan : Plan) (tale : Tale) (l : LinkId) (row : Row) (client : ClientNo) (n : SessionName)
        (left : LeftSession) → (tale.wires l).entered ≡ true → name_in row.link.state.carries ≡ Some n → n.client ≡ client → row.left ≡ None
        → IsKept (view_of setup tale) n left → IsRowIn setup codes plan tale l row
        → IsRowIn setup codes plan (tell (Left client) tale) l (left_by left row) }
{}
