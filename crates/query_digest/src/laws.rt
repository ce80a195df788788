// A law of digests, for whoever stands on this crate.
ghost use Rattle.std.specs.Prelude.{◌≡◌, List};
ghost use Rattle.query_digest.specs.Parts.{Spaced, folded};
ghost use Rattle.query_digest.specs.Runs.{FoldsTo};

/// Folding makes each longest run of two or more values with single commas between them one list, and leaves every
/// other part; and no other parts are that.
pub fn one_folding()
    ensures found { (parts : List Spaced) → FoldsTo parts (folded parts) }
    ensures only { (parts out : List Spaced) → FoldsTo parts out → out ≡ folded parts }
{}
