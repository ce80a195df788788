// A row stands for its link as bytes are read there.
ghost use Rattle.std.specs.Prelude.{◌≡◌, ◌<◌, ℕ, true, false, List, length};
ghost use Rattle.mx_base.specs.Fields.{AreBytes};
ghost use Rattle.private_model.specs.Names.{LinkId};
ghost use Rattle.private_model.specs.View.{Setup};
ghost use Rattle.log_story.specs.Plan.{Plan};
ghost use Rattle.log_story.specs.Tale.{Tale};
ghost use Rattle.log_story.specs.Telling.{server_says, wire_with};
ghost use Rattle.link_laws.specs.Stands.{AreApart, Codes};
ghost use Rattle.server_side.specs.Hearing.{entered_of};
ghost use Rattle.served_link.specs.Hears.{heard};
ghost use Rattle.served_link.specs.Reads.{EntersBy, used_at};
ghost use Rattle.served_link.specs.declared.news.News.{News};
ghost use Rattle.served_link.specs.declared.row.Row.{Row};
ghost use Rattle.row_laws.specs.Reads.{IsNumbered};
ghost use Rattle.row_laws.specs.Rows.{IsRowIn};

/// In the login the row stands for its link as bytes are read: as it goes on, as the router is logged in, whatever stands behind that, and as
/// it fails.
pub fn rows_enter()
    ensures { (setup : Setup) (codes : Codes) (plan : Plan) (tale : Tale) (l : LinkId) (row new : Row) (news : News) (bytes : List ℕ)
        → IsRowIn setup codes plan tale l row → (tale.wires l).entered ≡ false → row.link.spoilt ≡ false → row.lost ≡ false
        → EntersBy news new (entered_of bytes row.link.login) row → IsRowIn setup codes plan (server_says setup plan l bytes tale) l new }
{}

/// Behind the login the row stands for its link as bytes are read: of the answer to a question, which is told once it is whole, of the one
/// to a STMT_RESET, of which no story tells, or of what nobody asked for. The number that was read is the one of the answer, where that was
/// asked for.
pub fn rows_hear()
    ensures { (setup : Setup) (codes : Codes) (plan : Plan) (tale : Tale) (l : LinkId) (row : Row) (bytes : List ℕ)
        → IsRowIn setup codes plan tale l row → (tale.wires l).entered ≡ true → row.link.spoilt ≡ false → AreBytes bytes
        → 0 < length bytes → AreApart codes
        → IsNumbered bytes row (wire_with tale l bytes) → IsRowIn setup codes plan (server_says setup plan l bytes tale) l (heard bytes row) }
{}

/// The moment of a read is noted beside all that.
pub fn reads_are_uses()
    ensures { (bytes : List ℕ) (now : ℕ) (row : Row) → heard bytes (used_at now row) ≡ used_at now (heard bytes row) }
{}
