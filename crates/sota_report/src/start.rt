// Hashes of names that no file can be made for.
use sha2::{Digest, Sha256};
use std::hash::{BuildHasher, DefaultHasher, Hasher};

/// Where the hash of each name begins: behind the digest of the whole text of the names. Who writes
/// a text can then not pick its names so that their hashes are alike, since each change of a name
/// changes the hashes of all (after Aumasson and Bernstein 2012, whose hash begins with a key that
/// nobody else knows).
#[derive(Clone, Copy, Drop)]
pub struct HashStart {
    start: DefaultHasher,
}

impl HashStart {
    /// Where the hashes of the names of this text begin.
    pub fn of_text(bytes: &[u8]) -> HashStart {
        let mut start = DefaultHasher::new();
        start.write(&Sha256::digest(bytes));
        HashStart { start }
    }
}

impl BuildHasher for HashStart {
    type Hasher = DefaultHasher;

    ghost build_hasher = { λ start. start.start };

    fn build_hasher(&self) -> DefaultHasher {
        self.start
    }
}
