// Generate constructs: loops, conditions and regions, which hold items to a depth. The rules take the reader of the items
// in them as a parameter, so that each is proved by itself; the reader of an item gives itself to them, with one construct
// less to hold a token.
ghost use Rattle.sv_cursor.specs.Parsers.{Reads};
ghost use Rattle.sv_word_parser.specs.Combined.{sort_test};
ghost use Rattle.sv_item_parser.specs.Items as spec;
ghost use Rattle.sv_type_parser.specs.Lists.{Nests};
ghost use Rattle.sv_word_parser.specs.Words as words;

use crate::heads::{LoopHead, cond_head, loop_head};
use crate::module_items::{flat_item, item_next, sees_item};
use items::{Boxed, both};
use std::alloc::Global;
use sv_cursor::{Cursor, Keyword, ParseErr};
use sv_stmt_parser::{Bodied, Nested, block, branches, counted, is_given, parts};
use sv_tree::{Gen, Item};
use sv_type_parser::boxed;
use sv_word_parser::ItemOpener;

/// The rules of generate constructs, over a reader of the items in them.
#[derive(Drop)]
struct Generates<F> {
    alloc: Global,
    /// How many generate constructs may hold a token of an item in the construct.
    depth: u8,
    /// Reads an item to a depth.
    item: F,
}

impl<F: Fn(Global, &mut Cursor<'_>, u8) -> Result<Item, ParseErr>> Nested<Item> for Generates<F> {
    type Opener = ItemOpener;

    ghost ready = { λ rules. Nests (spec.item rules.depth) rules.depth (F.pre rules.item) (F.post rules.item) };

    ghost parser = { λ rules. spec.item rules.depth };

    ghost test = { sort_test words.item_by_sort };

    fn comes(tokens: &Cursor<'_>) -> bool {
        sees_item(tokens)
    }

    fn part(&self, tokens: &mut Cursor<'_>) -> Result<Item, ParseErr> {
        (self.item)(self.alloc, tokens, self.depth)
    }
}

impl<F: Fn(Global, &mut Cursor<'_>, u8) -> Result<Item, ParseErr>> Bodied for Generates<F> {
    type Head = LoopHead;

    type Body = Gen;

    ghost ready = { λ rules. Nests (spec.item rules.depth) rules.depth (F.pre rules.item) (F.post rules.item) };

    ghost heading = { spec.loop_head };

    ghost inner = { λ rules. spec.gen (spec.item rules.depth) };

    fn head(alloc: Global, tokens: &mut Cursor<'_>) -> Result<LoopHead, ParseErr> {
        loop_head(alloc, tokens)
    }

    fn body(&self, tokens: &mut Cursor<'_>) -> Result<Boxed<Gen>, ParseErr> {
        boxed(self.alloc, self.gen_body(tokens))
    }
}

impl<F: Fn(Global, &mut Cursor<'_>, u8) -> Result<Item, ParseErr>> Generates<F> {
    #[tactic(auto, unfolding(crate::specs::Items::gen_block))]
    fn gen_block(&self, tokens: &mut Cursor<'_>) -> Result<Gen, ParseErr>
        requires { Nests (spec.item self.now.depth) self.now.depth (F.pre self.now.item) (F.post self.now.item) }
        ensures { Reads (spec.gen_block (spec.item self.now.depth) tokens.old) result tokens.new }
    {
        let (place, (name, (all, label))) = block(self.alloc, tokens, self)?;
        Ok(Gen::Block(place, name, all, label))
    }

    #[tactic(auto, unfolding(crate::specs::Items::single, crate::specs::Items::place_test, sv_cursor::specs::Tests::place_test))]
    fn single(&self, tokens: &mut Cursor<'_>) -> Result<Gen, ParseErr>
        requires { Nests (spec.item self.now.depth) self.now.depth (F.pre self.now.item) (F.post self.now.item) }
        ensures { Reads (spec.single (spec.item self.now.depth) tokens.old) result tokens.new }
    {
        match tokens.place() {
            Some(place) => {
                let inner = boxed(self.alloc, self.part(tokens))?;
                Ok(Gen::Single(place, inner))
            }
            None => Err(tokens.refuse()),
        }
    }

    #[tactic(auto, using(crate::proofs::Firsts::gen_parts))]
    fn gen_body(&self, tokens: &mut Cursor<'_>) -> Result<Gen, ParseErr>
        requires { Nests (spec.item self.now.depth) self.now.depth (F.pre self.now.item) (F.post self.now.item) }
        ensures { Reads (spec.gen (spec.item self.now.depth) tokens.old) result tokens.new }
    {
        match tokens.peek_keyword(Keyword::Begin) {
            Some(_) => self.gen_block(tokens),
            None => self.single(tokens),
        }
    }

    /// A generate `if` (A.4.2, if_generate_construct).
    #[tactic(auto, unfolding(crate::specs::Items::gen_if))]
    fn conditional(&self, tokens: &mut Cursor<'_>) -> Result<Item, ParseErr>
        requires { Nests (spec.item self.now.depth) self.now.depth (F.pre self.now.item) (F.post self.now.item) }
        ensures { Reads (spec.gen_if (spec.item self.now.depth) tokens.old) result tokens.new }
    {
        let place = tokens.keyword(Keyword::If)?;
        let condition = cond_head(self.alloc, tokens)?;
        let (condition, (first, second)) = both(condition, branches(tokens, self))?;
        Ok(Item::If(place, condition, first, second))
    }

    /// A generate loop (A.4.2, loop_generate_construct).
    #[tactic(auto, unfolding(crate::specs::Items::gen_loop))]
    fn counted(&self, tokens: &mut Cursor<'_>) -> Result<Item, ParseErr>
        requires { Nests (spec.item self.now.depth) self.now.depth (F.pre self.now.item) (F.post self.now.item) }
        ensures { Reads (spec.gen_loop (spec.item self.now.depth) tokens.old) result tokens.new }
    {
        let (place, (head, body)) = counted(self.alloc, tokens, self)?;
        let (word, (variable, (start, (condition, step)))) = head;
        Ok(Item::For(
            place,
            is_given(word),
            variable,
            start,
            condition,
            step,
            body,
        ))
    }

    /// A generate region (A.4.2, generate_region).
    #[tactic(auto, unfolding(crate::specs::Items::region, crate::specs::Items::items, sv_type_parser::specs::Lists::while_told))]
    fn region(&self, tokens: &mut Cursor<'_>) -> Result<Item, ParseErr>
        requires { Nests (spec.item self.now.depth) self.now.depth (F.pre self.now.item) (F.post self.now.item) }
        ensures { Reads (spec.region (spec.item self.now.depth) tokens.old) result tokens.new }
    {
        tokens.keyword(Keyword::Generate)?;
        let all = parts(self.alloc, tokens, self)?;
        tokens.keyword(Keyword::Endgenerate)?;
        Ok(Item::Generate(all))
    }

    /// An item, by what its first token begins.
    fn item_for(&self, tokens: &mut Cursor<'_>, opener: ItemOpener) -> Result<Item, ParseErr>
        requires { Nests (spec.item self.now.depth) self.now.depth (F.pre self.now.item) (F.post self.now.item) }
        ensures { Reads (spec.item_for (spec.gen_loop (spec.item self.now.depth)) (spec.gen_if (spec.item self.now.depth)) (spec.region (spec.item self.now.depth)) opener tokens.old) result tokens.new }
    {
        match opener {
            ItemOpener::For => self.counted(tokens),
            ItemOpener::If => self.conditional(tokens),
            ItemOpener::Generate => self.region(tokens),
            _ => flat_item(self.alloc, tokens, opener),
        }
    }
}

/// An item of a module (A.1.4, module_or_generate_item), of which at most `depth` generate constructs hold a token. The
/// cursor stands behind it then.
pub fn item(alloc: Global, tokens: &mut Cursor<'_>, depth: u8) -> Result<Item, ParseErr>
    ensures { Reads (spec.item depth tokens.old) result tokens.new }
{
    let Some(opener) = item_next(tokens) else {
        return Err(tokens.refuse());
    };
    if depth == 0 {
        return flat_item(alloc, tokens, opener);
    }
    Generates {
        alloc,
        depth: depth - 1,
        item,
    }
    .item_for(tokens, opener)
}
