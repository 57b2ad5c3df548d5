// The words behind the verb that are no options.
ghost use Rattle.std.specs.Prelude.{◌≡◌, ◌≤◌, length};
ghost use Rattle.svtv_words.specs.Reading.{most_positionals};

/// The room for positionals, of which a verb has fewer or as many.
pub(crate) const MOST_POSITIONALS: usize = 4;

/// The positionals, in order.
#[derive(Clone, Copy)]
pub(crate) struct Names<'a> {
    pub words: [&'a [u8]; MOST_POSITIONALS],
    pub count: usize,
    ghost room: { length words ≡ most_positionals },
    ghost within: { count ≤ most_positionals },
}
