//! Reading a batch: objects, each behind its length.

ghost use Rattle.std.specs.Prelude.{◌≡◌, ◌≤◌, ◌<◌, ◌+◌, ◌⊎◌, ◌++◌, ◌∷◌, [], length, IfOk, IfErr, false};
ghost use Rattle.gw_answers.specs.Service.{nowhere};
ghost use Rattle.gw_batch.specs.Batch.{first_entry};
ghost use Rattle.gw_console.specs.Calls.{LosesAtMost, TellsReads};
ghost use Rattle.gpssw.specs.Framing.{GivesBatch, GivesEntry, GivesSized, GivesSurplus, most_bytes_of_batch};

use byteorder::{BigEndian, ByteOrder};
use gw_batch::{Entry, LENGTH_BYTES, MOST_OBJECTS, SERVICE_FULL};
use gw_console::{ProgramFault, read_front};
use gw_object::{Fault, MOST_BYTES, Place, codes};
use gw_streams::Input;
use std::alloc::Global;
use std::collections::VecDeque;
use std::io::Read;

/// What ends the reading of a batch: a refusal by this code.
fn broken(code: u16) -> Entry
    ensures { result ≡ Entry.Broken (nowhere code) }
{
    Entry::Broken(Fault {
        code,
        place: Place::Nowhere,
    })
}

/// Reads an object of so many bytes.
fn read_object<R: Read>(
    alloc: Global,
    reader: &mut Input<R>,
    size: usize,
) -> Result<Entry, ProgramFault>
    requires { reader.old.failed ≡ false }
    ensures entry { IfOk result (GivesSized size reader.old.left reader.new.left) }
    ensures faults { IfErr result (λ fault.
        (fault ≡ ProgramFault.Read) ⊎ (fault ≡ ProgramFault.Memory)) }
    ensures told { TellsReads result reader.old.failed reader.new.failed }
    ensures limited { LosesAtMost MOST_BYTES reader.old.left reader.new.left }
{
    if size > MOST_BYTES {
        return Ok(broken(codes::LIMIT));
    }
    let bytes = read_front(alloc, reader, size)?;
    if bytes.len() < size {
        Ok(broken(codes::TRUNCATED))
    } else {
        Ok(Entry::Object(bytes))
    }
}

/// Reads the next entry, a length and its object; none where there are no bytes.
fn read_entry<R: Read>(alloc: Global, reader: &mut Input<R>) -> Result<Option<Entry>, ProgramFault>
    requires { reader.old.failed ≡ false }
    ensures entry { IfOk result (λ entry.
        GivesEntry first_entry entry reader.old.left reader.new.left) }
    ensures faults { IfErr result (λ fault.
        (fault ≡ ProgramFault.Read) ⊎ (fault ≡ ProgramFault.Memory)) }
    ensures told { TellsReads result reader.old.failed reader.new.failed }
    ensures limited { LosesAtMost (MOST_BYTES + 4) reader.old.left reader.new.left }
{
    let size = read_front(alloc, reader, LENGTH_BYTES)?;
    if size.is_empty() {
        return Ok(None);
    }
    if size.len() < LENGTH_BYTES {
        return Ok(Some(broken(codes::TRUNCATED)));
    }
    let size = BigEndian::read_u32(&size) as usize;
    let entry = read_object(alloc, reader, size)?;
    Ok(Some(entry))
}

/// Reads whether there is an object too many: a byte.
fn read_surplus<R: Read>(alloc: Global, reader: &mut Input<R>) -> Result<bool, ProgramFault>
    requires { reader.old.failed ≡ false }
    ensures entry { IfOk result (GivesSurplus reader.old.left reader.new.left) }
    ensures faults { IfErr result (λ fault.
        (fault ≡ ProgramFault.Read) ⊎ (fault ≡ ProgramFault.Memory)) }
    ensures told { TellsReads result reader.old.failed reader.new.failed }
    ensures limited { LosesAtMost 1 reader.old.left reader.new.left }
{
    let byte = read_front(alloc, reader, 1)?;
    Ok(!byte.is_empty())
}

/// Puts an entry behind the others.
fn add(entries: &mut VecDeque<Entry>, entry: Entry) -> Result<(), ProgramFault>
    ensures added { IfOk result (λ _. entries.new.items ≡ entries.old.items ++ entry ∷ []) }
    ensures memory { IfErr result (λ fault. fault ≡ ProgramFault.Memory) }
{
    match entries.push_back(entry) {
        Ok(()) => Ok(()),
        Err(_) => Err(ProgramFault::Memory),
    }
}

/// Reads a batch: up to 1,024 objects, and then whether there is a byte more. A length above 1 MiB, and a length or an object that
/// is cut off, end the reading, and so does a read that fails.
pub fn read_batch<R: Read>(
    alloc: Global,
    reader: &mut Input<R>,
) -> Result<VecDeque<Entry>, ProgramFault>
    requires { reader.old.failed ≡ false }
    ensures batch { IfOk result (λ entries.
        GivesBatch entries.items reader.old.left reader.new.left) }
    ensures faults { IfErr result (λ fault.
        (fault ≡ ProgramFault.Read) ⊎ (fault ≡ ProgramFault.Memory)) }
    ensures told { TellsReads result reader.old.failed reader.new.failed }
    ensures limited { LosesAtMost most_bytes_of_batch reader.old.left reader.new.left }
{
    let mut entries = VecDeque::new(alloc);
    for _ in 0..MOST_OBJECTS {
        match read_entry(alloc, reader)? {
            Some(Entry::Object(bytes)) => add(&mut entries, Entry::Object(bytes))?,
            Some(Entry::Broken(fault)) => {
                add(&mut entries, Entry::Broken(fault))?;
                return Ok(entries);
            }
            None => return Ok(entries),
        }
    }
    if !read_surplus(alloc, reader)? {
        return Ok(entries);
    }
    add(&mut entries, broken(SERVICE_FULL))?;
    Ok(entries)
}
