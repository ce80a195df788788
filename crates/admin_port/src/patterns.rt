// Whether the texts of patterns that a statement gives are patterns.
ghost use Rattle.std.specs.Prelude.{◌≡◌, true, false, IfOk, option_copied};
ghost use Rattle.mx_config.specs.Values.{ArePatterns};
ghost use Rattle.admin_port.specs.Patterns.{ArePatterned, IsRefusedText, pattern_text, patterns_in, patterns_of};

use crate::pair::Pair;
use crate::statement::Statement;
use crate::value::Value;
use mx_base::OutOfMemory;
use query_rules::is_pattern;
use sql_tokens::is_one_of;
use std::alloc::Global;

// The text that a column gives, where it is one of a pattern.
fn pattern_of(pair: &Pair) -> Option<&[u8]>
    ensures { option_copied result ≡ pattern_text pair.now }
{
    if !is_one_of(pair.column.as_slice(), &[b"match_digest", b"match_pattern"]) {
        return None;
    }
    match &pair.value {
        Value::Text(text) => Some(text.as_slice()),
        _ => None,
    }
}

fn is_patterned(alloc: Global, pair: &Pair) -> Result<bool, OutOfMemory>
    ensures yes { result ≡ Ok true → ArePatterns (pattern_text pair.now) }
    ensures no { result ≡ Ok false → IsRefusedText (pattern_text pair.now) }
{
    match pattern_of(pair) {
        Some(text) => is_pattern(alloc, text),
        None => Ok(true),
    }
}

fn are_in(alloc: Global, pairs: &[Pair]) -> Result<bool, OutOfMemory>
    ensures { IfOk result (λ are. ArePatterned are (patterns_in pairs.now)) }
{
    for pair in pairs {
        let is = is_patterned(alloc, pair)?;
        if !is {
            return Ok(false);
        }
    }
    Ok(true)
}

/// Whether the texts of patterns that a statement gives are patterns of `regex`.
pub fn are_patterned(alloc: Global, statement: &Statement) -> Result<bool, OutOfMemory>
    ensures { IfOk result (λ are. ArePatterned are (patterns_of statement.now)) }
{
    match statement {
        Statement::Stage(_, change) => are_in(alloc, change.pairs.as_slice()),
        _ => Ok(true),
    }
}
