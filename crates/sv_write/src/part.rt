// Parts that are written alike, whatever they are: one that may be absent, several, and several with commas between them.
ghost use Rattle.sv_write.specs.Adds.{Adds};
ghost use Rattle.sv_write.specs.Writing as writing;

use crate::lexeme::Writer;
use sv_tree::Word;

/// What is written behind what is there.
pub trait Part {
    ghost text: { Self → writing.Write };

    /// Writes it.
    fn put(&self, out: &mut Writer)
        ensures { Adds (text self.now) out.old out.new };
}

impl Part for Word {
    ghost text = { writing.name };

    fn put(&self, out: &mut Writer) {
        out.name(self)
    }
}

/// Writes the part that there may be.
pub fn maybe<T: Part>(out: &mut Writer, option: &Option<T>)
    ensures { Adds (writing.maybe T.text option.now) out.old out.new }
{
    match option {
        Some(part) => part.put(out),
        None => {}
    }
}

/// Writes one part behind the other.
pub fn each<T: Part>(out: &mut Writer, all: &[T])
    ensures { Adds (writing.each T.text all.now) out.old out.new }
{
    'parts: for part in all {
        part.put(out);
    }
}

fn behind_comma<T: Part>(out: &mut Writer, part: &T)
    ensures { Adds (writing.behind_comma T.text part.now) out.old out.new }
{
    out.mark(b",");
    part.put(out)
}

/// Writes the parts with commas between them.
pub fn commas<T: Part>(out: &mut Writer, all: &[T])
    ensures { Adds (writing.commas T.text all.now) out.old out.new }
{
    match all {
        [] => {}
        [first, more @ ..] => {
            first.put(out);
            'parts: for part in more {
                behind_comma(out, part);
            }
        }
    }
}
