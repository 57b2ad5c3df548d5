// Kinds and texts of tokens, one behind the other.
ghost use Rattle.std.specs.Prelude.{◌≡◌, [], IfOk, Ok};
ghost use Rattle.sv_write.specs.Adds.{Adds};
ghost use Rattle.sv_write.specs.Writing as spec;

use items::Items;
use std::alloc::{AllocError, Global};
use sv_outside::{Kind, Name};
use sv_tree::Word;

/// The kind and the text of a token.
#[derive(Drop)]
pub struct Lexeme {
    pub kind: Kind,
    pub text: Name,
}

/// What is written, in order.
pub type Lexemes = Items<Lexeme>;

/// What is written, in order, until memory is out: then no more is written, and the want is kept for the end. So what writes a
/// part has no exits of its own, and its meaning stays small.
pub struct Writer {
    pub(crate) alloc: Global,
    pub(crate) written: Result<Lexemes, AllocError>,
}

impl Drop for Writer {
    fn drop(self) {
        let Writer {
            alloc: _,
            written: _,
        } = self;
    }
}

#[tactic(auto, unfolding(crate::specs::Writing::put))]
fn put(alloc: Global, out: &mut Lexemes, kind: Kind, text: &[u8]) -> Result<(), AllocError>
    ensures { IfOk result (λ _. out.new ≡ spec.put kind text.now out.old) }
{
    let text = Name::new(alloc, text)?;
    out.push(Lexeme { kind, text })?;
    Ok(())
}

impl Writer {
    /// A writer that has written nothing. Takes no memory.
    pub fn new(alloc: Global) -> Writer
        ensures { result.written ≡ Ok [] }
    {
        Writer {
            alloc,
            written: Ok(Items::new(alloc)),
        }
    }

    /// All that is written, or the want of memory.
    pub fn end(self) -> Result<Lexemes, AllocError>
        ensures { result ≡ self.written }
    {
        let Writer { alloc: _, written } = self;
        written
    }

    fn put(&mut self, kind: Kind, text: &[u8])
        ensures { Adds (spec.put kind text.now) self.old self.new }
    {
        if let Ok(all) = &mut self.written {
            if let Err(want) = put(self.alloc, all, kind, text) {
                self.written = Err(want);
            }
        }
    }

    /// Writes a mark.
    pub fn mark(&mut self, text: &[u8])
        ensures { Adds (spec.mark text.now) self.old self.new }
    {
        self.put(Kind::Mark, text)
    }

    /// Writes a keyword.
    pub fn key(&mut self, text: &[u8])
        ensures { Adds (spec.key text.now) self.old self.new }
    {
        self.put(Kind::Word, text)
    }

    pub fn system(&mut self, text: &[u8])
        ensures { Adds (spec.system text.now) self.old self.new }
    {
        self.put(Kind::System, text)
    }

    pub fn literal(&mut self, word: &Word)
        ensures { Adds (spec.literal word.now) self.old self.new }
    {
        self.put(Kind::Literal, word.text.bytes())
    }

    /// Writes a name.
    pub fn name(&mut self, word: &Word)
        ensures { Adds (spec.name word.now) self.old self.new }
    {
        self.put(Kind::Word, word.text.bytes())
    }
}
