// The keys of maps of names.
use name_index::NameDigest;
use sv_outside::Tokens;

/// A digest of the tokens of a text, which is the key of the maps of its names: each name that the text declares is in it.
pub fn key_of(tokens: &Tokens) -> u128 {
    let mut digest = NameDigest::new();
    'tokens: for token in tokens.list.as_slice() {
        digest.take(token.text.bytes());
    }
    digest.key()
}
