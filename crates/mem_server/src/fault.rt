// Why statements are refused.
ghost use Rattle.std.specs.Prelude.{◌≡◌, IfOk};
ghost use Rattle.mem_rule.specs.Answers.{code_of, err_payload, fault_bytes, message_of, state_of};

use mem_rule::Fault;
use mx_base::{Bytes, OutOfMemory};
use std::alloc::Global;

// The code of its error (MySQL Error Message Reference).
fn code(fault: Fault) -> u16
    ensures { result ≡ code_of fault }
{
    match fault {
        Fault::NoTable => 1146,
        Fault::Duplicate => 1062,
        Fault::Locked => 1205,
        Fault::Syntax => 1064,
    }
}

// The SQL state of its error.
fn state(fault: Fault) -> &'static [u8]
    ensures { result.now ≡ state_of fault }
{
    match fault {
        Fault::NoTable => b"42S02",
        Fault::Duplicate => b"23000",
        Fault::Locked => b"HY000",
        Fault::Syntax => b"42000",
    }
}

// The message of its error.
fn message(fault: Fault) -> &'static [u8]
    ensures { result.now ≡ message_of fault }
{
    match fault {
        Fault::NoTable => b"Table 't' doesn't exist",
        Fault::Duplicate => b"Duplicate entry for key 'PRIMARY'",
        Fault::Locked => b"Lock wait timeout exceeded; try restarting transaction",
        Fault::Syntax => b"You have an error in your SQL syntax",
    }
}

pub(crate) fn err_payload(alloc: Global, fault: Fault) -> Result<Bytes, OutOfMemory>
    ensures { IfOk result (λ payload. payload ≡ err_payload fault) }
{
    let [low, high] = code(fault).to_le_bytes();
    let mut out = Bytes::from_slice(alloc, &[0xFF, low, high, b'#'])?;
    out.append(state(fault))?;
    out.append(message(fault))?;
    Ok(out)
}

// What SHOW WARNINGS shows after it.
pub(crate) fn fault_bytes(alloc: Global, fault: Fault) -> Result<Bytes, OutOfMemory>
    ensures { IfOk result (λ bytes. bytes ≡ fault_bytes fault) }
{
    let [low, high] = code(fault).to_le_bytes();
    let mut out = Bytes::from_slice(alloc, &[low, high])?;
    out.append(message(fault))?;
    Ok(out)
}
