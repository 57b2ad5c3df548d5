// Parameters (IEEE 1800-2017, 6.20).
ghost use Rattle.sv_tree.specs.declared.design.ParamWord.TheVariants as param_word;
ghost use Rattle.sv_meaning.specs.Params.{kept};
ghost use Rattle.sv_types.specs.Values.{kind_is};
ghost use Rattle.sv_hierarchy.specs.Scopes.{add_param, add_params, header_params};
ghost use Rattle.sv_walk.specs.Walks.{Walks};

use crate::walker::{Open, Walker};
use sv_levels::{Actual, Given, entry_kind, entry_word, given_to, kind_at, value_at};
use sv_names::What;
use sv_outside::TextErr;
use sv_tree::{Expr, ParPort, Param, ParamWord, Word};
use sv_types::ParamKind;

impl<'a> Walker<'a> {
    // A parameter of such a kind, whose value sees what is declared above it.
    fn add_param(
        &mut self,
        current: &mut Open<'a>,
        word: ParamWord,
        kind: ParamKind,
        name: &'a Word,
        value: &'a Expr,
    ) -> Result<(), TextErr>
        ensures { Walks (add_param word (kind_is kind) name.now value.now) self.old current.old self.new current.new result }
    {
        let at = self.here(current);
        let own = Given {
            name,
            at,
            value: Actual::Written(value),
        };
        let given = given_to(&current.overridden, word, own);
        let known = value_at(self.alloc, &self.levels, kind, given)?;
        self.add_constant(current, name.place, &name.text, What::Number(known))
    }

    /// The parameters of a declaration, whose type is read once for all of them.
    pub fn add_params(&mut self, current: &mut Open<'a>, tree: &'a Param) -> Result<(), TextErr>
        ensures { Walks (add_params tree.now) self.old current.old self.new current.new result }
    {
        let at = self.here(current);
        let kind = kind_at(self.alloc, &self.levels, at, tree.form.as_ref())?;
        'list: for item in tree.list.as_slice() {
            self.add_param(current, tree.word, kind, &item.name, &item.value)?;
        }
        Ok(())
    }

    /// The parameters of a module's list. An entry takes over what it leaves out from the one before it.
    pub(crate) fn header_params(
        &mut self,
        current: &mut Open<'a>,
        list: &'a [ParPort],
    ) -> Result<(), TextErr>
        ensures { Walks (header_params param_word.Parameter kept list.now) self.old current.old self.new current.new result }
    {
        let mut word = ParamWord::Parameter;
        let mut kind = ParamKind::Kept;
        'list: for port in list {
            let at = self.here(current);
            kind = entry_kind(self.alloc, &self.levels, at, port, kind)?;
            word = entry_word(port, word);
            self.add_param(current, word, kind, &port.name, &port.value)?;
        }
        Ok(())
    }
}
