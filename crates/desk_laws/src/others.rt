// What happens to others leaves a desk as it is.
ghost use Rattle.std.specs.Prelude.{◌≡◌, ◌<◌, ℕ, List, Some, false};
ghost use Rattle.private_model.specs.Names.{ClientNo, SessionName};
ghost use Rattle.private_model.specs.Story.{Happening};
ghost use Rattle.private_model.specs.View.{Setup, View, view_step};
ghost use Rattle.client_desk.specs.declared.desk.Desk.{Desk};
ghost use Rattle.client_desk.specs.declared.session.Session.{Session};
ghost use Rattle.desk_laws.specs.Spares.{Spares, SparesToCome, named, touches};
ghost use Rattle.desk_laws.specs.Stands.{AreSessions, AreToCome, IsDesk};

/// What happens to another client.
pub fn others_stay()
    ensures { (setup : Setup) (view : View) (c : ClientNo) (desk : Desk) (e : Happening) → IsDesk setup.reads view c desk
        → touches view e c ≡ false → IsDesk setup.reads (view_step setup view e) c desk }
{}

/// The same of sessions alone: also those of a client that is to come.
pub fn strangers_stay()
    ensures { (setup : Setup) (view : View) (c : ClientNo) (lefts : ℕ) (rows : List Session) (e : Happening) → AreSessions view c lefts rows
        → touches view e c ≡ false → AreSessions (view_step setup view e) c lefts rows }
{}

/// What happens to a session that was left: a statement of it is only that of a client that ended.
pub fn parted_stays()
    ensures { (setup : Setup) (view : View) (c : ClientNo) (desk : Desk) (e : Happening) (n : SessionName) → IsDesk setup.reads view c desk
        → named view e ≡ Some n → n.life < view.lives n.client n.hostgroup → Spares view desk e
        → IsDesk setup.reads (view_step setup view e) c desk }
{}

/// Messages that are to come stay so.
pub fn coming_stays()
    ensures { (setup : Setup) (view : View) (c : ClientNo) (from : ℕ) (e : Happening) → AreToCome view c from → SparesToCome view c from e
        → AreToCome (view_step setup view e) c from }
{}
