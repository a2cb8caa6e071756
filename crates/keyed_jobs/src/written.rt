//! Bytes that are put on the standard output, and what stands there where that ends with an error.
ghost use Rattle.std.specs.Io.KnownBytes.{Appends};
ghost use Rattle.std.specs.Prelude.{◌≡◌, IfErr, OnErr, OnOk};
ghost use Rattle.keyed_jobs.specs.Written.{IsOfOutput, PutsSome, output_name};

use keyed_faults::{Fault, Reason};
use std::io::{self, ErrorKind, Write};

/// Puts bytes on the standard output.
///
/// # Errors
///
/// Returns the fault of the output, which may then have taken a beginning of the bytes.
pub fn put_on_output<'a, W: Write>(output: &mut W, bytes: &[u8]) -> Result<(), Fault<'a>>
    ensures put { OnOk result (Appends (W.contents output.old) (W.contents output.new) bytes.now) }
    ensures begun { IfErr result (λ fault. (fault.file.now ≡ output_name)
        × PutsSome (W.contents output.old) (W.contents output.new) bytes.now) }
    ensures why { IfErr result IsOfOutput }
{
    match put_all(output, bytes) {
        Ok(()) => Ok(()),
        Err(error) => Err(Fault {
            file: "the standard output",
            reason: Reason::Io(error),
        }),
    }
}

// Puts bytes on an output as `write_all` does, of which no clause says what it leaves where it fails. No output is interrupted so often.
fn put_all<W: Write>(output: &mut W, bytes: &[u8]) -> io::Result<()>
    ensures put { OnOk result (Appends (W.contents output.old) (W.contents output.new) bytes.now) }
    ensures begun { OnErr result (PutsSome (W.contents output.old) (W.contents output.new) bytes.now) }
{
    let mut rest = bytes;
    for _ in 0..u64::MAX {
        if rest.is_empty() {
            return Ok(());
        }
        match output.write(rest) {
            Ok(0) => return Err(io::Error::from(ErrorKind::WriteZero)),
            Ok(count) => rest = &rest[count..],
            Err(error) => {
                if error.kind() != ErrorKind::Interrupted {
                    return Err(error);
                }
            }
        }
    }
    Err(io::Error::from(ErrorKind::Interrupted))
}
