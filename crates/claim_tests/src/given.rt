// What the dealt files of a session are made for, and the digest of a text.
ghost use Rattle.std.specs.Prelude.{◌≡◌};
ghost use Rattle.sha2.specs.Sha256.{sha256};
ghost use Rattle.zk_model.specs.Bytes.{AreBytes};

use sha2::{Digest, Sha256};
use zk_model::{Kind, Params};

/// The seed of all files.
pub const SEED: [u8; 32] = [7; 32];

/// 256 units of 64 correlations each, as they are dealt.
pub const DIRECT: Params = Params {
    kind: Kind::Direct,
    height: 0,
    trees: 0,
    base: 0,
    total: 256,
};

/// Seven units of eight correlations each, by extension.
pub const EXTENDED: Params = Params {
    kind: Kind::Extended,
    height: 2,
    trees: 2,
    base: 10,
    total: 7,
};

/// The digest of a text.
pub fn digest_of(text: &[u8]) -> [u8; 32]
    ensures { AreBytes 32 result }
{
    Sha256::digest(text)
}
