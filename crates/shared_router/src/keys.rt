// Numbers of texts and places.
ghost use Rattle.std.specs.Prelude.{ℕ};
ghost use Rattle.mx_wire.specs.Log.{Log};
ghost use Rattle.private_model.specs.Commands.{Account};
ghost use Rattle.private_model.specs.Names.{ClientNo};
ghost use Rattle.private_model.specs.Story.{Key};
ghost use Rattle.router_promises.specs.Terms.{AreWhoTheySay};
ghost use Rattle.session_state.specs.declared.place.Place.{Place};
ghost use Rattle.shared_router.specs.Fixed.{Fixed, IsNumbered};
ghost use Rattle.shared_router.specs.Shared.{final_terms};

/// Each text and place can have its number.
pub fn can_be_numbered()
    ensures { (fixed : Fixed) → (keys : ℕ → Key) × (number_of : Key → ℕ)
        × IsNumbered (record fixed { keys = keys; number_of = number_of }) }
{}

/// And beside the numbers it can be said before a log who its clients are.
pub fn can_be_fixed()
    ensures { (fixed : Fixed) (log : Log) → (keys : ℕ → Key) × (number_of : Key → ℕ) × (accounts : ClientNo → Account) × (places : ClientNo → Place)
        × IsNumbered (record fixed { keys = keys; number_of = number_of; accounts = accounts; places = places })
        × AreWhoTheySay (final_terms (record fixed { keys = keys; number_of = number_of; accounts = accounts; places = places }) log) log }
{}
