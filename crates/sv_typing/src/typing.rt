//! Expressions typed by their productions: one cycle of functions over trees, which only takes them apart and calls the rules.
//! Each constant position is evaluated once, where it stands, so that typing is linear in the tree.
ghost use Rattle.std.specs.Prelude.{◌≡◌, map, option_map, IfSome};
ghost use Rattle.std.specs.Option.{option_copied};
ghost use Rattle.sv_outside.specs.declared.refusal.Place.{Place};
ghost use Rattle.sv_meaning.specs.Layouts.{find};
ghost use Rattle.sv_meaning.specs.Meanings.{from, named};
ghost use Rattle.sv_meaning.specs.Values.{mean, step, system_meaning, operand_scope};
ghost use Rattle.sv_names.specs.Cursors.{cursor_is, CursorIsSound};
ghost use Rattle.sv_typing.specs.Judging.{Judges, JudgesAll, Types, Fixes};
ghost use Rattle.sv_names.specs.Kinds.{what_is, WhatIsSound};
ghost use Rattle.sv_names.specs.Names.{names_are, constants_are};
ghost use Rattle.sv_typing.specs.Positions.{is_constant, seen_in};
ghost use Rattle.sv_typing.specs.Picks.{Leads, rule_faults, rule_scope};
ghost use Rattle.sv_typing.specs.Roots.{JudgesChain};

use crate::begins::{is_signed, start};
use crate::chain::{Chain, IndexRule, chain_of};
use crate::constants::{fixed_index, fixed_of};
use crate::picks::{between_pick, index_pick, many_pick, member_pick};
use crate::position::{Fixed, Position};
use crate::roots::{named_by, root_of};
use crate::rules::{chosen_typed, literal_typed, log_typed, one_typed, sign_typed, two_typed};
use crate::sides::{cast_typed, concat_of, name_cast_typed, repeat_of};
use items::Items;
use std::alloc::Global;
use sv_names::{Cursor, Names, What};
use sv_outside::TextErr;
use sv_tree::{Expr, RangeMark, Select, SystemName, Word};
use sv_typed::{One, Pick, Turn, Typed, one_of, two_of};

/// An expression typed over the names of a place, where it stands so; or why it is refused: E2, E12, E14, E15, E16, E23 or E25.
#[cycle(expr)]
pub fn typed(
    alloc: Global,
    expr: &Expr,
    names: &Names<'_>,
    position: Position,
) -> Result<Typed, TextErr>
    ensures { Judges (mean (seen_in position (names_are names.now)) expr.now) (is_constant position) result }
{
    match expr {
        Expr::Literal(word) => literal_typed(word),
        Expr::Name(word, selects) => named_typed(alloc, word, selects.as_slice(), names, position),
        Expr::Paren(_, inner) => one_typed(
            alloc,
            One::Turned(Turn::Plus),
            typed(alloc, inner.get(), names, position),
        ),
        Expr::Concat(place, parts) => concat_of(
            *place,
            parts.as_slice(),
            typed_parts(alloc, parts.as_slice(), names, position),
        ),
        Expr::Repeat(place, count, parts) => repeat_of(
            *place,
            fixed(alloc, count.get(), names),
            parts.as_slice(),
            typed_parts(alloc, parts.as_slice(), names, position),
        ),
        Expr::CastLiteral(word, inner) => cast_typed(
            alloc,
            word.place,
            fixed_of(word.place, literal_typed(word)),
            typed(alloc, inner.get(), names, position),
        ),
        Expr::CastName(word, inner) => name_cast_typed(
            alloc,
            word,
            names.find_above(word.text.bytes()),
            position.is_constant(),
            typed(alloc, inner.get(), names, position),
        ),
        Expr::CastParen(place, count, inner) => cast_typed(
            alloc,
            *place,
            fixed_of(*place, typed(alloc, count.get(), names, Position::Constant)),
            typed(alloc, inner.get(), names, position),
        ),
        Expr::CastSign(sign, _, inner) => sign_typed(
            alloc,
            is_signed(*sign),
            typed(alloc, inner.get(), names, position),
        ),
        Expr::System(name, _, inner) => system_typed(alloc, *name, inner.get(), names, position),
        Expr::Unary(op, _, inner) => one_typed(
            alloc,
            one_of(*op),
            typed(alloc, inner.get(), names, position),
        ),
        Expr::Binary(x, op, place, y) => two_typed(
            alloc,
            *place,
            two_of(*op),
            x.get(),
            typed(alloc, x.get(), names, position),
            typed(alloc, y.get(), names, position),
        ),
        Expr::Choose(condition, x, y) => chosen_typed(
            alloc,
            typed(alloc, condition.get(), names, position),
            typed(alloc, x.get(), names, position),
            typed(alloc, y.get(), names, position),
        ),
    }
}

// A system function of an expression.
#[cycle(expr)]
fn system_typed(
    alloc: Global,
    name: SystemName,
    inner: &Expr,
    names: &Names<'_>,
    position: Position,
) -> Result<Typed, TextErr>
    ensures { (p : Place) → Judges (from p (system_meaning name (mean (operand_scope name (seen_in position (names_are names.now))) inner.now))) (is_constant position) result }
{
    match name {
        SystemName::Signed => sign_typed(alloc, true, typed(alloc, inner, names, position)),
        SystemName::Unsigned => sign_typed(alloc, false, typed(alloc, inner, names, position)),
        SystemName::Clog2 => log_typed(alloc, fixed(alloc, inner, names)),
    }
}

/// A constant expression: its value at its own length, wholly 0 and 1; or why it is refused.
#[cycle(expr)]
pub fn fixed(alloc: Global, expr: &Expr, names: &Names<'_>) -> Result<Fixed, TextErr>
    ensures { Fixes (mean (constants_are names.now) expr.now) result }
{
    fixed_of(start(expr), typed(alloc, expr, names, Position::Constant))
}

// The parts of a concatenation.
#[cycle(expr)]
fn typed_parts(
    alloc: Global,
    all: &[Expr],
    names: &Names<'_>,
    position: Position,
) -> Result<Items<Typed>, TextErr>
    ensures { JudgesAll (map (mean (seen_in position (names_are names.now))) all.now) (is_constant position) result }
{
    let mut list = Items::new(alloc);
    'parts: for expr in all {
        let part = typed(alloc, expr, names, position)?;
        list.push(part)?;
    }
    Ok(list)
}

// What a name stands for in an expression that stands so.
fn found<'a>(names: &'a Names<'_>, word: &Word, position: Position) -> Option<&'a What>
    ensures is { option_map what_is (option_copied result) ≡ find word.now.text (seen_in position (names_are names.now)) }
    ensures sound { IfSome result (λ what. WhatIsSound what.now) }
{
    match position {
        Position::Constant => names.find_above(word.text.bytes()),
        Position::Free | Position::Still => names.find(word.text.bytes()),
    }
}

// A name with its selects.
#[cycle(expr)]
fn named_typed(
    alloc: Global,
    word: &Word,
    selects: &[Select],
    names: &Names<'_>,
    position: Position,
) -> Result<Typed, TextErr>
    ensures { Judges (named word.now (find word.now.text (seen_in position (names_are names.now))) (map (step (seen_in position (names_are names.now))) selects.now)) (is_constant position) result }
{
    match root_of(word, found(names, word, position), position.is_constant()) {
        Ok((at, root)) => {
            named_by(
                root,
                chain_behind(alloc, at, selects, names, IndexRule::Read(position)),
            )
        }
        Err(why) => Err(why),
    }
}

/// The selects behind a place of a layout as parts of its bits, where each index is judged so; or why they are refused.
#[cycle(expr)]
pub fn chain_behind(
    alloc: Global,
    at: Cursor<'_>,
    selects: &[Select],
    names: &Names<'_>,
    rule: IndexRule,
) -> Result<Chain, TextErr>
    requires { CursorIsSound at }
    ensures { JudgesChain (rule_faults rule) (cursor_is at.entry) (map (step (rule_scope rule (names_are names.now))) selects.now) result }
{
    let mut picks = Items::new(alloc);
    let mut end = at;
    'selects: for select in selects {
        match select_step(alloc, end, select, names, rule) {
            Ok((next, pick)) => {
                picks.push(pick)?;
                end = next;
            }
            Err(why) => return Err(why),
        }
    }
    Ok(chain_of(picks, end))
}

// One select.
#[cycle(expr)]
fn select_step<'a>(
    alloc: Global,
    at: Cursor<'a>,
    select: &Select,
    names: &Names<'_>,
    rule: IndexRule,
) -> Result<(Cursor<'a>, Pick), TextErr>
    requires { CursorIsSound at }
    ensures { Leads (rule_faults rule) (cursor_is at.entry) (step (rule_scope rule (names_are names.now)) select.now) result }
{
    match select {
        Select::Member(place, word) => member_pick(at, *place, word.text.bytes()),
        Select::Index(place, index) => {
            index_pick(
                alloc,
                at,
                *place,
                typed_index(alloc, index.get(), names, rule),
            )
        }
        Select::Range(place, left, mark, right) => match *mark {
            RangeMark::To => between_pick(
                at,
                *place,
                fixed(alloc, left.get(), names),
                fixed(alloc, right.get(), names),
            ),
            RangeMark::Up | RangeMark::Down => many_pick(
                alloc,
                at,
                *place,
                *mark,
                typed_index(alloc, left.get(), names, rule),
                fixed(alloc, right.get(), names),
            ),
        },
    }
}

// An index, judged so.
#[cycle(expr)]
fn typed_index(
    alloc: Global,
    expr: &Expr,
    names: &Names<'_>,
    rule: IndexRule,
) -> Result<Typed, TextErr>
    ensures { Types (mean (rule_scope rule (names_are names.now)) expr.now) (rule_faults rule (mean (rule_scope rule (names_are names.now)) expr.now)) result }
{
    match rule {
        IndexRule::Read(position) => typed(alloc, expr, names, position),
        IndexRule::Fixed => fixed_index(start(expr), typed(alloc, expr, names, Position::Constant)),
        IndexRule::Joined => fixed_index(start(expr), typed(alloc, expr, names, Position::Still)),
    }
}
