ghost use Rattle.std.specs.Prelude.{◌≡◌, ◌≢◌, None, IfOk, OnOk};
ghost use Rattle.clap.specs.Words.{kind_of};

use clap::Error;
use clap::error::ErrorKind;
use wire_num::OutOfMemory;

/// No command line, but for want of memory.
pub(crate) fn refused<T>(fault: &Error) -> Result<Option<T>, OutOfMemory>
    ensures none { IfOk result (λ found. found ≡ None) }
    ensures kind { OnOk result (kind_of fault.now ≢ ErrorKind.OutOfMemory) }
{
    match fault.kind() {
        ErrorKind::OutOfMemory => Err(OutOfMemory),
        _ => Ok(None),
    }
}
