// The number of an answer.
ghost use Rattle.std.specs.Prelude.{◌≡◌, ℕ, true, false, List};
ghost use Rattle.mx_base.specs.Fields.{AreBytes};
ghost use Rattle.private_model.specs.Names.{LinkId};
ghost use Rattle.private_model.specs.View.{Setup};
ghost use Rattle.log_story.specs.Plan.{Plan};
ghost use Rattle.log_story.specs.Tale.{Tale};
ghost use Rattle.log_story.specs.Telling.{wire_with};
ghost use Rattle.link_laws.specs.Stands.{Codes};
ghost use Rattle.served_link.specs.declared.row.Row.{Row};
ghost use Rattle.row_laws.specs.Reads.{IsNumbered};
ghost use Rattle.row_laws.specs.Rows.{IsRowIn};

use reply_ends::numbers_are_read;

/// What is read of the answer to a question for an insert id is the one number of its payloads.
pub fn numbers_are_heard()
    ensures { (setup : Setup) (codes : Codes) (plan : Plan) (tale : Tale) (l : LinkId) (row : Row) (bytes : List ℕ)
        → IsRowIn setup codes plan tale l row → (tale.wires l).entered ≡ true → row.link.spoilt ≡ false → AreBytes bytes
        → IsNumbered bytes row (wire_with tale l bytes) }
{
    numbers_are_read();
}
