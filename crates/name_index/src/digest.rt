// Digests of names, which are the keys of maps. A map's hash begins behind its key, and each name that is put in is in the digest, so
// whoever looks for names that begin at one place of a table changes with each of them where all names begin. A digest only steers how
// fast a name is found: it has no contract.
use md5::{Digest, Md5};
use std::hash::{BuildHasher, DefaultHasher, Hasher};

/// A digest of texts, one after the other.
#[derive(Drop)]
pub struct NameDigest {
    taken: Md5,
}

impl NameDigest {
    /// Of no texts.
    pub fn new() -> NameDigest {
        NameDigest { taken: Md5::new() }
    }

    /// Goes on with one more text.
    pub fn take(&mut self, text: &[u8]) {
        self.taken.update(&(text.len() as u64).to_le_bytes());
        self.taken.update(text);
    }

    /// The digest as a number.
    pub fn key(self) -> u128 {
        u128::from_le_bytes(self.taken.finalize())
    }
}

/// The digest of one text.
pub fn digest_of(text: &[u8]) -> u128 {
    u128::from_le_bytes(Md5::digest(text))
}

/// Hashes behind a key.
#[derive(Clone, Copy)]
pub struct Keyed {
    start: DefaultHasher,
}

impl Keyed {
    /// Behind this key.
    pub(crate) fn new(key: u128) -> Keyed {
        let mut start = DefaultHasher::new();
        start.write_u128(key);
        Keyed { start }
    }
}

impl BuildHasher for Keyed {
    type Hasher = DefaultHasher;

    ghost build_hasher = { λ keyed. keyed.start };

    fn build_hasher(&self) -> DefaultHasher {
        self.start
    }
}
