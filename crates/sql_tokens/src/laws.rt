// Laws of tokens, for whoever stands on this crate.
ghost use Rattle.std.specs.Prelude.{◌≡◌, ◌≢◌, ◌≤◌, ◌<◌, ℕ, List, ◌++◌, Some, length, take};
ghost use Rattle.std.specs.List.{AllByRecursion};
ghost use Rattle.sql_tokens.specs.Comments.{to_block_end};
ghost use Rattle.sql_tokens.specs.Marks.{ClosesAfter, BlockEndsAfter};
ghost use Rattle.sql_tokens.specs.Numbers.{number_length};
ghost use Rattle.sql_tokens.specs.Numerals.{IsNumeral};
ghost use Rattle.sql_tokens.specs.Quotes.{to_closing};
ghost use Rattle.sql_tokens.specs.Spans.{AreTokens, IsSpan};
ghost use Rattle.sql_tokens.specs.Tokens.{tokens_of};
ghost use Rattle.sql_tokens.specs.declared.token.Token.{Token};

/// Every text has tokens, and no second list of them: spans in order that aren't empty and end within the text, white
/// space alone between them, and each the one that the first rule gives at its place.
pub fn one_token_list()
    ensures found { (text : List ℕ) → AreTokens text 0 (tokens_of text) }
    ensures only { (text : List ℕ) (tokens : List Token) → AreTokens text 0 tokens → tokens ≡ tokens_of text }
    ensures spans { (text : List ℕ) → AllByRecursion (IsSpan text) (tokens_of text) }
{}

/// A quoted text or a name ends at the first quote that is neither escaped nor one of a doubled pair (MySQL Reference
/// Manual, "String Literals"). No quote is a backslash, whose code is 92.
pub fn closing_quote()
    ensures found { (quote : ℕ) (bytes : List ℕ) (size : ℕ) → to_closing quote bytes ≡ Some size → ClosesAfter quote bytes size }
    ensures only { (quote : ℕ) (bytes : List ℕ) (size : ℕ) → quote ≢ 92 → ClosesAfter quote bytes size → to_closing quote bytes ≡ Some size }
{}

/// A comment in `/*` ends at the first `*/` behind that (MySQL Reference Manual, "Comments").
pub fn block_end()
    ensures found { (bytes : List ℕ) (size : ℕ) → to_block_end bytes ≡ Some size → BlockEndsAfter bytes size }
    ensures only { (bytes : List ℕ) (size : ℕ) → BlockEndsAfter bytes size → to_block_end bytes ≡ Some size }
{}

/// A Number is the longest front that is one (MySQL Reference Manual, "Numeric Literals"): `0x` and hexadecimal digits,
/// or digits, a fraction and an exponent. A front that none begins has the length 0.
pub fn longest_number()
    ensures found { (bytes : List ℕ) → 0 < number_length bytes → IsNumeral (take (number_length bytes) bytes) }
    ensures longest { (bytes front rest : List ℕ) → bytes ≡ front ++ rest → IsNumeral front → length front ≤ number_length bytes }
{}
