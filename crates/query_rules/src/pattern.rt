// Patterns, and what they find and replace.
ghost use Rattle.std.specs.Prelude.{◌≡◌, ◌≢◌, true, false, IfOk, IfErr};
ghost use Rattle.regex.specs.declared.error.Error.TheVariants as errors;
ghost use Rattle.query_rules.specs.Building.{IsFieldRead, IsFieldFault};
ghost use Rattle.query_rules.specs.Patterns.{IsPattern, IsReadIn, IsRefused, finds, replaced};

use crate::RuleFault;
use mx_base::{Bytes, OutOfMemory};
use regex::bytes::{Regex, Template};
use std::alloc::Global;

/// Why a pattern isn't compiled.
#[derive(Clone, Copy)]
pub(crate) enum PatternFault {
    Refused,
    OutOfMemory,
}

/// Compiles a pattern.
pub(crate) fn compile(alloc: Global, text: &[u8]) -> Result<Regex, PatternFault>
    ensures ok { IfOk result (IsReadIn text.now) }
    ensures refused { result ≡ Err PatternFault.Refused → IsRefused text.now }
{
    let Ok(source) = str::from_utf8(text) else {
        return Err(PatternFault::Refused);
    };
    match Regex::new(alloc, source) {
        Ok(pattern) => Ok(pattern),
        Err(error) => Err(fault_of(error)),
    }
}

fn fault_of(error: regex::Error) -> PatternFault
    ensures { result ≡ PatternFault.Refused → error ≢ errors.OutOfMemory }
{
    match error {
        regex::Error::OutOfMemory => PatternFault::OutOfMemory,
        _ => PatternFault::Refused,
    }
}

/// Compiles the pattern of a rule's field, if it is there.
pub(crate) fn compile_field(
    alloc: Global,
    id: u32,
    field: &Option<Bytes>,
) -> Result<Option<Regex>, RuleFault>
    ensures ok { IfOk result (IsFieldRead field.now) }
    ensures refused { IfErr result (IsFieldFault id field.now) }
{
    let Some(text) = field else {
        return Ok(None);
    };
    match compile(alloc, text.as_slice()) {
        Ok(pattern) => Ok(Some(pattern)),
        Err(PatternFault::Refused) => Err(RuleFault::BadPattern { id }),
        Err(PatternFault::OutOfMemory) => Err(RuleFault::OutOfMemory),
    }
}

/// Whether a text is a pattern that a rule may have as its `match_digest` or `match_pattern`: UTF-8 that `regex` compiles.
/// Where it isn't, `Rules::build` answers `BadPattern`. The only error is want of memory.
pub fn is_pattern(alloc: Global, text: &[u8]) -> Result<bool, OutOfMemory>
    ensures yes { result ≡ Ok true → IsPattern text.now }
    ensures no { result ≡ Ok false → IsRefused text.now }
{
    match compile(alloc, text) {
        Ok(_pattern) => Ok(true),
        Err(PatternFault::Refused) => Ok(false),
        Err(PatternFault::OutOfMemory) => Err(OutOfMemory),
    }
}

/// Whether a pattern finds something in a text.
pub(crate) fn finds(alloc: Global, pattern: &Regex, text: &[u8]) -> Result<bool, OutOfMemory>
    ensures { IfOk result (λ found. found ≡ finds pattern.now text.now) }
{
    let mut matcher = pattern.matcher(alloc)?;
    Ok(matcher.is_match(text))
}

/// A text with all that a pattern finds in it replaced by what a template writes there.
pub(crate) fn replaced(
    alloc: Global,
    pattern: &Regex,
    template: &[u8],
    text: &[u8],
) -> Result<Bytes, OutOfMemory>
    ensures { IfOk result (λ out. out ≡ replaced pattern.now template.now text.now) }
{
    let template = Template::new(alloc, pattern.capture_names(), template)?;
    let mut matcher = pattern.matcher(alloc)?;
    Ok(Bytes::from_vec(matcher.replace_all(alloc, text, &template)?))
}
