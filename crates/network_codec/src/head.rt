// The head of a file.
ghost use Rattle.std.specs.Prelude.{◌≡◌, ◌↔◌, ◌≤◌, length, take, drop, IsTrue, IfSome, IfNone, IfOk, IfErr};
ghost use Rattle.sha2.specs.Sha256.{sha256};
ghost use Rattle.network_codec.specs.Form.{mark};
ghost use Rattle.network_codec.specs.File.{told, body_of, IsCutOff, IsHeaded, HasVersion, HasDigest, IsDamaged};

use crate::{Damage, Version};
use sha2::{Digest, Sha256};

// The bytes of a head.
const HEAD: usize = 52;

// The length of the body, as the head tells it.
fn told_length(bytes: &[u8]) -> u64
    requires { 52 ≤ length bytes.now }
    ensures { result ≡ told bytes.now }
{
    let told = &bytes[12..20];
    u64::from_be_bytes([
        told[0], told[1], told[2], told[3], told[4], told[5], told[6], told[7],
    ])
}

// The bytes of the body, as many as the head tells.
fn body_in(bytes: &[u8]) -> Option<&[u8]>
    ensures whole { IfSome result (λ body. (body.now ≡ body_of bytes.now) × (¬ (IsCutOff bytes.now))) }
    ensures cut_off { IfNone result (IsCutOff bytes.now) }
{
    if bytes.len() < HEAD {
        return None;
    }
    let length = told_length(bytes);
    if ((bytes.len() - HEAD) as u64) < length {
        return None;
    }
    Some(&bytes[HEAD..HEAD + length as usize])
}

// Whether the mark stands in front.
fn is_marked(bytes: &[u8]) -> bool
    requires { 52 ≤ length bytes.now }
    ensures { IsTrue result ↔ (take 8 bytes.now ≡ mark) }
{
    &bytes[..8] == b"ULTRANET".as_slice()
}

// The version that the head tells.
#[tactic(auto, unfolding(network_bytes::specs::Bytes::word))]
fn version_in(bytes: &[u8]) -> Option<Version>
    requires { 52 ≤ length bytes.now }
    ensures found { IfSome result (λ version. HasVersion version bytes.now) }
    ensures none { IfNone result ((version : Version) → ¬ (HasVersion version bytes.now)) }
{
    let told = &bytes[8..12];
    if told == [0, 0, 0, 1].as_slice() {
        return Some(Version::One);
    }
    if told == [0, 0, 0, 2].as_slice() {
        return Some(Version::Two);
    }
    None
}

// Whether the head tells the digest of the body.
fn has_digest(bytes: &[u8], body: &[u8]) -> bool
    requires { 52 ≤ length bytes.now }
    ensures { IsTrue result ↔ (take 32 (drop 20 bytes.now) ≡ sha256 body.now) }
{
    &bytes[20..52] == Sha256::digest(body).as_slice()
}

/// The version and the body of a file whose head is right, or the first damage of its head. The body is not looked into.
pub fn headed(bytes: &[u8]) -> Result<(Version, &[u8]), Damage>
    ensures right { IfOk result (λ found. IsHeaded found.0 bytes.now × (HasDigest bytes.now × (found.1.now ≡ body_of bytes.now))) }
    ensures damaged { IfErr result (IsDamaged bytes.now) }
{
    let Some(body) = body_in(bytes) else {
        return Err(Damage::TooShort);
    };
    if !is_marked(bytes) {
        return Err(Damage::Magic);
    }
    let Some(version) = version_in(bytes) else {
        return Err(Damage::Version);
    };
    if !has_digest(bytes, body) {
        return Err(Damage::Digest);
    }
    Ok((version, body))
}
