//! The digest of a model text.

ghost use Rattle.std.specs.Prelude.{◌≡◌, IfOk};
ghost use Rattle.hex.specs.Hex.{encode_lower};
ghost use Rattle.sha2.specs.Sha256.{sha256};

use gw_object::Memory;
use sha2::{Digest, Sha256};
use std::alloc::Global;

/// The digest of a model text: its SHA-256 in 64 hexadecimal digits, which `sha256sum` prints of its file too.
pub fn digest_of(alloc: Global, text: &[u8]) -> Result<Vec<u8>, Memory>
    ensures { IfOk result (λ digest. digest.items ≡ encode_lower (sha256 text.now)) }
{
    let digits = hex::encode(alloc, Sha256::digest(text))?;
    let mut digest = Vec::new(alloc);
    digest.extend_from_slice(digits.as_bytes())?;
    Ok(digest)
}
