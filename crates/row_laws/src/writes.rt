// A row stands for its link as bytes are written there.
ghost use Rattle.std.specs.Prelude.{◌≡◌, ◌<◌, ◌≤◌, ℕ, Bool, true, false, List, Option, Some, None, length, take};
ghost use Rattle.mx_base.specs.Sent as sent;
ghost use Rattle.mx_base.specs.declared.tag.Tag.{Tag};
ghost use Rattle.private_model.specs.Names.{LinkId};
ghost use Rattle.private_model.specs.View.{Setup};
ghost use Rattle.log_story.specs.Plan.{Plan};
ghost use Rattle.log_story.specs.Servers as servers;
ghost use Rattle.log_story.specs.Servers.{begun_on, quits_for, step_for, writes};
ghost use Rattle.log_story.specs.Tale.{Tale, view_of};
ghost use Rattle.link_laws.specs.Stands.{Codes};
ghost use Rattle.reply_relay.specs.Cells.{CellRead};
ghost use Rattle.lent_link.specs.Links.{left_in, stands_next};
ghost use Rattle.lent_link.specs.Rests.{may_begin};
ghost use Rattle.lent_link.specs.declared.link.Begins.{Begins};
ghost use Rattle.served_link.specs.Rows.{taken_back};
ghost use Rattle.served_link.specs.Writes.{wrote};
ghost use Rattle.served_link.specs.declared.row.Row.{Row};
ghost use Rattle.row_laws.specs.Begins.{IsBeginning};
ghost use Rattle.row_laws.specs.Rows.{IsRowIn};

/// Whether something may begin on a link is the law's test.
pub fn rows_may_begin()
    ensures { (setup : Setup) (codes : Codes) (plan : Plan) (tale : Tale) (l : LinkId) (row : Row) → IsRowIn setup codes plan tale l row
        → (tale.wires l).entered ≡ true → servers.may_begin setup l (tale.wires l) tale ≡ may_begin row.link }
{}

/// Something is to be written next where it may begin: the row stands for its link still, whatever it is.
pub fn rows_take_next()
    ensures { (setup : Setup) (codes : Codes) (plan : Plan) (tale : Tale) (l : LinkId) (row : Row) (tag : Tag) (spelt : List ℕ) (next : Begins)
        (first number : ℕ) (multiplex : Option Bool) (cell : Option CellRead) → IsRowIn setup codes plan tale l row
        → (tale.wires l).entered ≡ true → may_begin row.link ≡ true → row.link.quits ≡ false
        → IsRowIn setup codes plan tale l (record row { link = stands_next tag spelt next first number row.link; multiplex = multiplex; cell = cell }) }
{}

/// And it is taken back.
pub fn rows_take_back()
    ensures { (setup : Setup) (codes : Codes) (plan : Plan) (tale : Tale) (l : LinkId) (row : Row) → IsRowIn setup codes plan tale l row
        → IsRowIn setup codes plan tale l (taken_back row) }
{}

/// In the login the row stands for its link as bytes of what there is to say are written.
pub fn rows_say()
    ensures { (setup : Setup) (codes : Codes) (plan : Plan) (tale : Tale) (l : LinkId) (row : Row) (tag : Tag) (count now : ℕ)
        → IsRowIn setup codes plan tale l row → (offer : sent.Sent) → left_in row.link ≡ Some offer → count ≤ length offer.bytes → 0 < count
        → (tale.wires l).entered ≡ false → row.link.spoilt ≡ false
        → IsRowIn setup codes plan (writes setup plan l tag (take count offer.bytes) (tale.wires l) tale) l (wrote count now row) }
{}

/// Behind it, as bytes go on with what began.
pub fn rows_write_on()
    ensures { (setup : Setup) (codes : Codes) (plan : Plan) (tale : Tale) (l : LinkId) (row : Row) (tag : Tag) (count now : ℕ)
        → IsRowIn setup codes plan tale l row → (offer : sent.Sent) → left_in row.link ≡ Some offer → count ≤ length offer.bytes → 0 < count
        → (tale.wires l).entered ≡ true → row.link.next ≡ None
        → IsRowIn setup codes plan (writes setup plan l tag (take count offer.bytes) (tale.wires l) tale) l (wrote count now row) }
{}

/// And as something begins with them: a question, a STMT_CLOSE, a STMT_RESET or the QUIT, where the law has the same begin.
pub fn rows_begin()
    ensures { (setup : Setup) (codes : Codes) (plan : Plan) (tale : Tale) (l : LinkId) (row : Row) (tag : Tag) (count now : ℕ)
        → IsRowIn setup codes plan tale l row → (offer : sent.Sent) → left_in row.link ≡ Some offer → count ≤ length offer.bytes → 0 < count
        → (tale.wires l).entered ≡ true → (next : Begins) → row.link.next ≡ Some next
        → IsBeginning next setup.reads codes (view_of setup tale) l row ((view_of setup tale).links l)
        (begun_on setup plan tale.moment (view_of setup tale) l (tale.wires l) tag) (step_for tag (plan.steps l (tale.wires l).begun))
        (quits_for tag (plan.steps l (tale.wires l).begun))
        → IsRowIn setup codes plan (writes setup plan l tag (take count offer.bytes) (tale.wires l) tale) l (wrote count now row) }
{}
