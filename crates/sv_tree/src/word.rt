// A token that a tree keeps whole.
use sv_outside::{Name, Place};

/// An identifier (A.9.3) or a literal (A.8.7): its bytes, and the place of its token.
pub struct Word {
    pub text: Name,
    pub place: Place,
}

impl Drop for Word {
    fn drop(self) {
        let Word { text: _, place: _ } = self;
    }
}
