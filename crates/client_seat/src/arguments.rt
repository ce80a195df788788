// The arguments of an execute.
ghost use Rattle.std.specs.Prelude.{◌≡◌, [], IfOk};
ghost use Rattle.log_story.specs.Executes.{given_in, typed};

use crate::bytes::{behind, front};
use mx_base::{Bytes, OutOfMemory};
use session_vars::LongPart;
use std::alloc::Global;
use std::marker::Model;

/// What an execute is given: the types last bound, which parameters are NULL, their values, and long data.
#[derive(Drop)]
pub struct Args {
    pub types: Option<Bytes>,
    pub nulls: Bytes,
    pub values: Bytes,
    pub long: Vec<LongPart>,
}

impl Model for Args {
    ghost use Rattle.private_model.specs.Commands.{Args};

    ghost Value = { Args };

    ghost view = { λ a. record {
      types = a.types;
      nulls = a.nulls;
      values = a.values;
      long = a.long.items;
    } };
}

// Arguments that are there, without long data.
fn plain_args(
    alloc: Global,
    types: Option<Bytes>,
    nulls: &[u8],
    values: &[u8],
) -> Result<Args, OutOfMemory>
    ensures { IfOk result (λ args. args
        ≡ record { types = types; nulls = nulls.now; values = values.now; long = [] }) }
{
    Ok(Args {
        types,
        nulls: Bytes::from_slice(alloc, nulls)?,
        values: Bytes::from_slice(alloc, values)?,
        long: Vec::new(alloc),
    })
}

// The arguments behind the NULLs: types where the first byte says so, and values.
#[tactic(auto, using(crate::proofs::Asking::typed_none, crate::proofs::Asking::typed_plain, crate::proofs::Asking::typed_types))]
fn typed(alloc: Global, params: u16, nulls: &[u8], rest: &[u8]) -> Result<Args, OutOfMemory>
    ensures { IfOk result (λ args. args ≡ typed params nulls.now rest.now) }
{
    if rest.is_empty() {
        return plain_args(alloc, None, nulls, &[]);
    }
    let fields = behind(rest, 1);
    if rest[0] != 1 {
        return plain_args(alloc, None, nulls, fields);
    }
    let size = 2 * params as usize;
    let types = Bytes::from_slice(alloc, front(fields, size))?;
    plain_args(alloc, Some(types), nulls, behind(fields, size))
}

/// The arguments in the payload of an execute of a statement with so many parameters (client/server protocol,
/// "COM_STMT_EXECUTE").
#[tactic(auto, using(crate::proofs::Asking::given_none, crate::proofs::Asking::given_some))]
pub(crate) fn given_in(alloc: Global, params: u16, payload: &[u8]) -> Result<Args, OutOfMemory>
    ensures { IfOk result (λ args. args ≡ given_in params payload.now) }
{
    if params == 0 {
        return plain_args(alloc, None, &[], &[]);
    }
    let size = (params as usize + 7) / 8;
    let nulls = front(behind(payload, 10), size);
    typed(alloc, params, nulls, behind(payload, 10 + size))
}
