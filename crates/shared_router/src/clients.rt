// Clients: who they are.
ghost use Rattle.mx_wire.specs.Log.{Log};
ghost use Rattle.mx_wire.specs.Moments.{AtEachMoment};
ghost use Rattle.private_model.specs.Commands.{Account};
ghost use Rattle.private_model.specs.Names.{ClientNo};
ghost use Rattle.router_promises.specs.Terms.{AreWhoTheySay};
ghost use Rattle.session_state.specs.declared.place.Place.{Place};
ghost use Rattle.shared_router.specs.Fixed.{Fixed};
ghost use Rattle.shared_router.specs.Shared.{final_terms};

/// Where clients are who they say in the end, they are so at each moment: a login that is whole stays as more bytes come.
pub fn stay_who_they_say()
    ensures { (fixed : Fixed) (log : Log) → AreWhoTheySay (final_terms fixed log) log
        → AtEachMoment (AreWhoTheySay (final_terms fixed log)) log }
{}

/// Who clients are can be said before a log: for each there are accounts and places by which they are who they say.
pub fn can_be_guessed()
    ensures { (fixed : Fixed) (log : Log) → (accounts : ClientNo → Account) × (places : ClientNo → Place)
        × AreWhoTheySay (final_terms (record fixed { accounts = accounts; places = places }) log) log }
{}
