// Statements worked out.
ghost use Rattle.std.specs.Prelude.{◌≡◌, [], ◌∷◌, Some, codes};
ghost use Rattle.server_rule.specs.Replies.{one_number};
ghost use Rattle.server_rule.specs.declared.command.Cmd.TheVariants.{Close, Query, Reset};
ghost use Rattle.mem_rule.specs.Worked.{asks, count, end_of, filled, id_behind, in_transaction, other_behind, rows_behind, temporary};

/// What a transaction kept reaches the data at its commit, and neither at its rollback nor at a reset.
pub fn worked_rollback()
    ensures shown { in_transaction.reply ≡ (0 ∷ 1 ∷ 1 ∷ 3 ∷ 0 ∷ 0 ∷ 0 ∷ []) ∷ [] }
    ensures reset { rows_behind Reset ≡ Some 0 }
    ensures rollback { rows_behind (Query (codes "ROLLBACK")) ≡ Some 0 }
    ensures commit { rows_behind (Query (codes "COMMIT")) ≡ Some 1 }
{}

/// A lock keeps other sessions out until its session frees it, is reset or ends.
pub fn worked_lock()
    ensures held { (other_behind []).code ≡ 1205 }
    ensures unlocked { (other_behind (Query (codes "UNLOCK TABLES") ∷ [])).insert_id ≡ 1 }
    ensures reset { (other_behind (Reset ∷ [])).insert_id ≡ 1 }
    ensures close { (other_behind (Close ∷ [])).insert_id ≡ 1 }
{}

/// The insert id that is shown is the one that is kept, until a reset.
pub fn worked_insert_id()
    ensures shown { (end_of filled).insert_id ≡ 1 }
    ensures kept { id_behind [] ≡ Some 1 }
    ensures reset { id_behind (Reset ∷ []) ≡ Some 0 }
{}

/// A temporary table is its session's, and goes with a reset.
pub fn worked_temporary()
    ensures seen { one_number (asks temporary count).reply ≡ Some 1 }
    ensures reset { (end_of (asks (asks temporary Reset) count)).code ≡ 1146 }
{}
