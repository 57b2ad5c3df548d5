// The bounds of a packed range.
ghost use Rattle.std.specs.Prelude.{◌≡◌, IsTrue};
ghost use Rattle.sv_meaning.specs.Layouts.{count_between};
ghost use Rattle.sv_meaning.specs.Meanings.{is_bound};

/// The left and the right bound of a packed range, each of 32 bits (IEEE 1800-2017, 7.4.1).
#[derive(Clone, Copy)]
pub struct Bounds {
    pub left: i64,
    pub right: i64,
    ghost left_fits: { IsTrue (is_bound left) },
    ghost right_fits: { IsTrue (is_bound right) },
}

impl Bounds {
    pub(crate) fn new(left: i64, right: i64) -> Bounds
        requires left { IsTrue (is_bound left) }
        requires right { IsTrue (is_bound right) }
        ensures left { result.left ≡ left }
        ensures right { result.right ≡ right }
    {
        Bounds { left, right }
    }

    /// How many elements lie between them, both counted.
    pub(crate) fn count(&self) -> u64
        ensures { result ≡ count_between self.now.left self.now.right }
    {
        self.left.abs_diff(self.right) + 1
    }
}
