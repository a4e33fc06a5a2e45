//! The object of a case: assembled from its text or read from its bytes, and patched.

ghost use Rattle.gw_rules.specs.Pass.{KindsPass};
ghost use Rattle.gw_rules.specs.PlusChecks.{PlusPasses};

use crate::patches::{apply, splice};
use crate::stop::Stop;
use crate::words::words_of;
use gw_assemble::{assemble, settle};
use gw_object::{Object, Parts};
use gw_object_bytes::{build, read, write};
use gw_rules::Verified;
use gw_text::{Model, parse};
use gw_verify::{check_first, verify};
use std::alloc::Global;

/// What the source of a case is.
#[derive(Clone, Copy, PartialEq, Eq)]
pub enum Kind {
    /// A model text.
    Text,
    /// The bytes of an object.
    Object,
}

/// What a case is about.
#[derive(Drop)]
pub struct Source<'a> {
    /// What its bytes are.
    pub kind: Kind,
    /// Its bytes.
    pub bytes: Vec<u8>,
    /// The lines of changes of its object's parts, in order: `block 3 weight 1`.
    pub patches: Vec<&'a [u8]>,
    /// The lines of changes of its object's spelling, in order: `6 7 ff 00`.
    pub splices: Vec<&'a [u8]>,
}

/// The statements of a text.
pub fn model_of(alloc: Global, source: &Source) -> Result<Model, Stop> {
    match source.kind {
        Kind::Text => Ok(parse(alloc, source.bytes.as_slice())?),
        Kind::Object => Err(Stop::Unknown),
    }
}

/// The object that a text becomes.
pub fn assembled_object(alloc: Global, source: &Source) -> Result<Object, Stop> {
    let model = model_of(alloc, source)?;
    let verified = assemble(alloc, &model);
    drop(model);
    Ok(verified?.into_object())
}

/// The object as the source gives it, without patches.
fn bare_object(alloc: Global, source: &Source) -> Result<Object, Stop> {
    match source.kind {
        Kind::Text => assembled_object(alloc, source),
        Kind::Object => Ok(read(alloc, source.bytes.as_slice())?),
    }
}

/// Makes the changes of parts.
fn patch(alloc: Global, parts: &mut Parts, patches: &[&[u8]]) -> Result<(), Stop> {
    for line in patches {
        let words = words_of(alloc, line)?;
        apply(alloc, parts, words.as_slice())?;
    }
    Ok(())
}

/// The object of parts.
fn built(parts: Parts) -> Result<Object, Stop> {
    match build(parts) {
        Ok(object) => Ok(object),
        Err((parts, fault)) => {
            drop(parts);
            Err(Stop::from(fault))
        }
    }
}

/// The object with its parts changed.
fn patched(alloc: Global, object: Object, patches: &[&[u8]]) -> Result<Object, Stop> {
    let mut parts = object.into_parts();
    match patch(alloc, &mut parts, patches) {
        Ok(()) => built(parts),
        Err(stop) => {
            drop(parts);
            Err(stop)
        }
    }
}

/// Makes the changes of a spelling.
fn splice_all(alloc: Global, bytes: &mut Vec<u8>, splices: &[&[u8]]) -> Result<(), Stop> {
    for line in splices {
        let words = words_of(alloc, line)?;
        splice(alloc, bytes, words.as_slice())?;
    }
    Ok(())
}

/// The object whose spelling is that of another one with changes.
fn spliced(alloc: Global, object: &Object, splices: &[&[u8]]) -> Result<Object, Stop> {
    let mut bytes = write(alloc, object)?;
    splice_all(alloc, &mut bytes, splices)?;
    Ok(read(alloc, bytes.as_slice())?)
}

/// The object as the source gives it, with its parts changed.
fn object_with_patches(alloc: Global, source: &Source) -> Result<Object, Stop> {
    let object = bare_object(alloc, source)?;
    if source.patches.is_empty() {
        Ok(object)
    } else {
        patched(alloc, object, source.patches.as_slice())
    }
}

/// The object of a case.
pub fn object_of(alloc: Global, source: &Source) -> Result<Object, Stop> {
    let object = object_with_patches(alloc, source)?;
    if source.splices.is_empty() {
        Ok(object)
    } else {
        let spliced = spliced(alloc, &object, source.splices.as_slice());
        drop(object);
        spliced
    }
}

/// An object of which kinds and PLUS code pass, with the assembler's state table in place of its own.
fn with_assemblers_table(alloc: Global, object: Object) -> Result<Object, Stop>
    requires kinds { KindsPass object }
    requires code { PlusPasses object }
{
    match settle(alloc, object) {
        Ok(settled) => Ok(settled),
        Err((object, fault)) => {
            drop(object);
            Err(Stop::from(fault))
        }
    }
}

/// The object of a case, with the assembler's state table in place of its own.
pub fn settled_of(alloc: Global, source: &Source) -> Result<Object, Stop> {
    let object = object_of(alloc, source)?;
    match check_first(&object) {
        Ok(()) => with_assemblers_table(alloc, object),
        Err(fault) => {
            drop(object);
            Err(Stop::from(fault))
        }
    }
}

/// The object of a case, accepted.
pub fn verified_of(alloc: Global, source: &Source) -> Result<Verified, Stop> {
    let object = object_of(alloc, source)?;
    match verify(alloc, object) {
        Ok(verified) => Ok(verified),
        Err((object, fault)) => {
            drop(object);
            Err(Stop::from(fault))
        }
    }
}
