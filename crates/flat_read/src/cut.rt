//! Lines of a text.

ghost use Rattle.std.specs.Prelude.{MatchOption};
ghost use Rattle.flat_text.specs.FlatTexts.{IsUnbroken};
ghost use Rattle.flat_read.specs.States.{IsCut};

/// The first line of a text, without its line feed, and what stands behind it; None where there is no line feed.
pub fn cut(text: &[u8]) -> Option<(&[u8], &[u8])>
    ensures { MatchOption result (IsUnbroken text.now) (λ p. IsCut text.now p.0.now p.1.now) }
{
    let end = text.iter().position(|b| *b == b'\n')?;
    let (line, rest) = text.split_at(end);
    Some((line, &rest[1..]))
}
