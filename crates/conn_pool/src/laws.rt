// What the pool's choices say.
ghost use Rattle.std.specs.Prelude.{◌≡◌, ℕ, true, IfSome};
ghost use Rattle.slot_lists.specs.Orders.{has};
ghost use Rattle.conn_pool.specs.Shelves.{Shelves, best_for, shelf_of};

/// A link that is lent is of the key that it was asked for, and it may be lent.
pub fn lends_its_key()
    ensures key { (s : Shelves) (key place : ℕ) → IfSome (best_for s key place) (λ link. (shelf_of s link).key ≡ key) }
    ensures lendable { (s : Shelves) (key place : ℕ) → IfSome (best_for s key place) (λ link. has link s.order ≡ true) }
{}
