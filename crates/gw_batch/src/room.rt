//! How much memory the jobs of a window are taken to need.

ghost use Rattle.std.specs.Prelude.{◌≡◌, true};

use gw_object::Kind;
use gw_scan::Spec;

/// Jobs are added to as many as there are workers while those so far are taken to need less than so many bytes: 48 MiB.
const ROOM: usize = 48 << 20;

/// What a job is taken to need beside its tables and its object, in bytes: 64 KiB.
const BYTES_OF_A_JOB: usize = 64 << 10;

/// What a class of a table is taken to need, in bytes: 8 in the state, and some 16 in its line of the report, which is kept
/// once the job has ended.
const BYTES_OF_A_CLASS: usize = 24;

/// How many times its bytes an object is taken to need, once it is read.
const TIMES_ITS_BYTES: usize = 4;

/// The classes of an entity, if it is a table.
fn classes(kind: &Kind) -> usize {
    match kind {
        Kind::Table(table) => usize::from(table.classes),
        _ => 0,
    }
}

/// The classes of all tables of a job.
fn classes_of(spec: &Spec) -> usize {
    let mut all = 0usize;
    for entity in spec.verified_object().object().parts().entities.as_slice() {
        all = all.saturating_add(classes(&entity.kind));
    }
    all
}

/// How many bytes a job is taken to need, whose object has so many. It is no bound: chains grow while a job runs.
pub(crate) fn need_of(spec: &Spec, size: usize) -> usize {
    classes_of(spec)
        .saturating_mul(BYTES_OF_A_CLASS)
        .saturating_add(size.saturating_mul(TIMES_ITS_BYTES))
        .saturating_add(BYTES_OF_A_JOB)
}

/// Whether there is room for a job more beside so many jobs, which are taken to need so many bytes.
pub(crate) fn has_room(workers: u32, jobs: usize, need: usize) -> bool
    ensures { need ≡ 0 → result ≡ true }
{
    jobs < workers as usize || need < ROOM
}
