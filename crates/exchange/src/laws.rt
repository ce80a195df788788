// Laws of the replies of a server, for whoever stands on this crate.
ghost use Rattle.std.specs.Prelude.{◌≡◌, ◌<◌, ℕ, List};
ghost use Rattle.mx_base.specs.Fields.{AreBytes};
ghost use Rattle.exchange.specs.Manual.{IsHeard};
ghost use Rattle.exchange.specs.Replies.{Heard, Form, heard_as};

/// What bytes behind a command begin with is what the manual says ("Command Phase").
pub fn replies_are_the_manuals()
    ensures { (form : Form) (bytes : List ℕ) → form.first < 256 → AreBytes bytes → IsHeard form bytes (heard_as form bytes) }
{}

/// The manual leaves one way to hear bytes behind a command.
pub fn one_way_to_hear()
    ensures { (form : Form) (bytes : List ℕ) (one other : Heard) → form.first < 256 → IsHeard form bytes one → IsHeard form bytes other → one ≡ other }
{}
