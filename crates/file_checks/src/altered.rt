// Altered files.
ghost use Rattle.std.specs.Prelude.{◌≤◌, length};

use sha2::{Digest, Sha256};
use std::alloc::{AllocError, Global};

/// The file with another byte at a place.
pub fn altered(alloc: Global, file: &[u8], place: usize, byte: u8) -> Result<Vec<u8>, AllocError> {
    let mut bytes = Vec::from_slice(alloc, file)?;
    if place < bytes.len() {
        bytes[place] = byte;
    }
    Ok(bytes)
}

/// The file with the digest of its body.
pub fn with_digest(alloc: Global, file: &[u8]) -> Result<Vec<u8>, AllocError>
    requires { 52 ≤ length file.now }
{
    let mut bytes = Vec::from_slice(alloc, &file[..20])?;
    bytes.extend_from_slice(&Sha256::digest(&file[52..]))?;
    bytes.extend_from_slice(&file[52..])?;
    Ok(bytes)
}
