//! Digests of passwords.

ghost use Rattle.std.specs.Prelude.{◌≡◌};
ghost use Rattle.pc_account.specs.Digest.{digest_of};

use pc_base::{Name, Password};
use sha2::{Digest, Sha256};

/// What is kept of a password: the SHA-256 digest (FIPS 180-4) of the user's name, a zero byte and the password.
pub fn digest(user: &Name, password: &Password) -> [u8; 32]
    ensures { result ≡ digest_of user.now password.now }
{
    let mut hasher = Sha256::new();
    hasher.update(user.bytes());
    hasher.update(b"\0");
    hasher.update(password.bytes());
    hasher.finalize()
}
