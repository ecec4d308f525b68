//! Digests of bytes.
ghost use Rattle.std.specs.Prelude.{◌≡◌, length, OnOk, IfErr};
ghost use Rattle.sha2.specs.Sha512.{sha512};
ghost use Rattle.hex.specs.Hex.{encode_lower};
ghost use Rattle.tl_frame.specs.Answers.{IsCheckErrorOf};

use crate::error::CheckError;
use sha2::{Digest, Sha512};

/// The SHA-512 of bytes in lower case hexadecimal digits. Takes no memory.
pub fn digest_hex(bytes: &[u8]) -> [u8; 128]
    ensures { result ≡ encode_lower (sha512 bytes.now) }
{
    let mut digits = [0; 128];
    let digest = Sha512::digest(bytes);
    match hex::encode_to_slice(digest.as_slice(), &mut digits) {
        Ok(()) => digits,
        Err(_) => unreachable!(),
    }
}

/// Whether bytes have the stated size and SHA-512. `SizeDiffers` comes exactly where their number isn't the stated one, else
/// `DigestDiffers` exactly where their digest isn't. Takes no memory.
pub fn check(bytes: &[u8], size: u64, digest: &[u8; 64]) -> Result<(), CheckError>
    ensures ok { OnOk result ((length bytes.now ≡ size) × (sha512 bytes.now ≡ digest.now)) }
    ensures err { IfErr result (IsCheckErrorOf bytes.now size digest.now) }
{
    let got = bytes.len() as u64;
    if got != size {
        return Err(CheckError::SizeDiffers { want: size, got });
    }
    let got = Sha512::digest(bytes);
    if got.as_slice() != digest.as_slice() {
        return Err(CheckError::DigestDiffers { want: *digest, got });
    }
    Ok(())
}
