// Laws of numbers in a packet, for whoever stands on this crate.
ghost use Rattle.std.specs.Prelude.{◌≡◌, ◌<◌, ℕ, ◌+◌, ◌^◌, List, ◌++◌, length, Some};
ghost use Rattle.mx_base.specs.Fields.{number_bytes, number_at, lenenc, lenenc_at};
ghost use Rattle.mx_base.specs.declared.fields.Field.TheVariants.{Value};

/// A number that was spelled is read again, wherever it stands and whatever follows it: one of so many bytes, the
/// least significant first, and a length-encoded one.
pub fn numbers_again()
    ensures fixed { (size n : ℕ) (before rest : List ℕ) → n < 256 ^ size → number_at size (length before) (before ++ (number_bytes size n ++ rest)) ≡ Some n }
    ensures lenenc { (n : ℕ) (before rest : List ℕ) → n < 2 ^ 64 → lenenc_at (length before) (before ++ (lenenc n ++ rest)) ≡ Value n (length before + length (lenenc n)) }
{}
