//! Reading the input.

ghost use Rattle.std.specs.Prelude.{◌≡◌, ◌≤◌, ◌<◌, ◌+◌, ◌⊎◌, false, take, length, IfOk, IfErr, IfSome};
ghost use Rattle.std.specs.Io.KnownBytes.{Consumes, IsAtEnd};
ghost use Rattle.gw_console.specs.Input.{ReadsSome};
ghost use Rattle.gw_console.specs.Calls.{LosesAtMost, TellsReads};

use crate::fault::ProgramFault;
use gw_object::MOST_BYTES;
use gw_streams::Input;
use std::alloc::Global;
use std::io::Read;

/// One read of at most so many bytes, which are appended to the input. It answers how many came; 0 is the end.
fn read_some<R: Read>(
    reader: &mut Input<R>,
    most: usize,
    input: &mut Vec<u8>,
) -> Result<usize, ProgramFault>
    requires some { 0 < most }
    requires unfailed { reader.old.failed ≡ false }
    ensures taken { ReadsSome most result input.old input.new reader.old.left reader.new.left }
    ensures faults { IfErr result (λ fault.
        (fault ≡ ProgramFault.Read) ⊎ (fault ≡ ProgramFault.Memory)) }
    ensures told { TellsReads result reader.old.failed reader.new.failed }
    ensures limited { LosesAtMost most reader.old.left reader.new.left }
{
    let mut chunk = [0; 4096];
    let room = most.min(chunk.len());
    match reader.read(&mut chunk[..room]) {
        Ok(count) => match input.extend_from_slice(&chunk[..count]) {
            Ok(()) => Ok(count),
            Err(_) => Err(ProgramFault::Memory),
        },
        Err(_) => Err(ProgramFault::Read),
    }
}

/// Reads to the end, but at most so many bytes. A read that fails ends it, an interrupted one too.
pub fn read_front<R: Read>(
    alloc: Global,
    reader: &mut Input<R>,
    most: usize,
) -> Result<Vec<u8>, ProgramFault>
    requires { reader.old.failed ≡ false }
    ensures front { IfOk result (λ input.
        IfSome reader.old.left (λ bytes. input.items ≡ take most bytes)) }
    ensures within { IfOk result (λ input. length input.items ≤ most) }
    ensures end { IfOk result (λ input. length input.items < most → IsAtEnd reader.new.left) }
    ensures taken { IfOk result (λ input.
        Consumes reader.old.left reader.new.left input.items) }
    ensures faults { IfErr result (λ fault.
        (fault ≡ ProgramFault.Read) ⊎ (fault ≡ ProgramFault.Memory)) }
    ensures told { TellsReads result reader.old.failed reader.new.failed }
    ensures limited { LosesAtMost most reader.old.left reader.new.left }
{
    let mut input = Vec::new(alloc);
    while input.len() < most {
        let room = most - input.len();
        if read_some(reader, room, &mut input)? == 0 {
            return Ok(input);
        }
    }
    Ok(input)
}

/// Reads to the end, but at most one byte more than an object may have: the limit and one, in bytes.
pub fn read_input<R: Read>(alloc: Global, reader: &mut Input<R>) -> Result<Vec<u8>, ProgramFault>
    requires { reader.old.failed ≡ false }
    ensures front { IfOk result (λ input.
        IfSome reader.old.left (λ bytes. input.items ≡ take (MOST_BYTES + 1) bytes)) }
    ensures within { IfOk result (λ input. length input.items ≤ MOST_BYTES + 1) }
    ensures taken { IfOk result (λ input.
        Consumes reader.old.left reader.new.left input.items) }
    ensures faults { IfErr result (λ fault.
        (fault ≡ ProgramFault.Read) ⊎ (fault ≡ ProgramFault.Memory)) }
    ensures told { TellsReads result reader.old.failed reader.new.failed }
    ensures limited { LosesAtMost (MOST_BYTES + 1) reader.old.left reader.new.left }
{
    read_front(alloc, reader, MOST_BYTES + 1)
}
