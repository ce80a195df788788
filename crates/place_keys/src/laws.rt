// A law of keys.
ghost use Rattle.std.specs.Prelude.{◌≡◌, ℕ, List};
ghost use Rattle.session_vars.specs.declared.change.SlotValue.{SlotValue};
ghost use Rattle.session_vars.specs.Settings.{AreSettings};
ghost use Rattle.place_keys.specs.Keys.{place_key};

/// Places with equal keys are equal.
pub fn places_apart()
    ensures { (schema other : List ℕ) (a b : List SlotValue) → AreSettings a → AreSettings b
        → place_key schema a ≡ place_key other b → (schema ≡ other) × (a ≡ b) }
{}
