// The words and marks that the grammar chooses by, each told by the next token alone (IEEE 1800-2017, annex A). For each there
// are up to three calls: what comes next, the same taken, and the same where it is there. A choice looks first and takes
// afterwards, so no rule ever goes back, and each call reads at most one token.
ghost use Rattle.std.specs.Prelude.{◌≡◌, is_some};
ghost use Rattle.sv_cursor.specs.Parsers as parser;
ghost use Rattle.sv_cursor.specs.Parsers.{Reads, told};
ghost use Rattle.sv_cursor.specs.Tests as test;
ghost use Rattle.sv_word_parser.specs.Combined as spec;
ghost use Rattle.sv_word_parser.specs.Words as words;

use crate::openers::AlwaysWord;
use sv_cursor::{Cursor, Keyword, Mark, ParseErr, Sort};
use sv_tree::{
    BitsWord, CaseWord, Edge, EventMark, NetWord, ParamBits, ParamWord, Sign, StepMark, StepSign,
    Uniq, Way, WholeWord,
};

/// Whether the mark comes next.
pub fn sees(tokens: &Cursor<'_>, mark: Mark) -> bool
    ensures { result ≡ is_some (told (test.mark_test mark) tokens.now) }
{
    tokens.peek_mark(mark).is_some()
}

/// Goes behind the token that tells something (`Syntax` where none does).
pub fn taken<A>(tokens: &mut Cursor<'_>, word: Option<A>) -> Result<A, ParseErr>
    ensures { Reads (parser.take_told word tokens.old) result tokens.new }
{
    match word {
        Some(word) => {
            tokens.skip();
            Ok(word)
        }
        None => Err(tokens.refuse()),
    }
}

fn sign_of(word: Keyword) -> Option<Sign>
    ensures { result ≡ words.sign_by_word word }
{
    match word {
        Keyword::Signed => Some(Sign::Signed),
        Keyword::Unsigned => Some(Sign::Unsigned),
        _ => None,
    }
}

/// The sign (A.2.2.1, signing) that comes next.
#[tactic(auto, using(crate::proofs::Firsts::word_first))]
pub fn sign_next(tokens: &Cursor<'_>) -> Option<Sign>
    ensures { result ≡ told (spec.word_test words.sign_by_word) tokens.now }
{
    match tokens.sort() {
        Sort::Keyword(word) => sign_of(word),
        _ => None,
    }
}

/// The sign (A.2.2.1, signing) that has to come next (`Syntax` where it does not).
#[tactic(auto, unfolding(sv_cursor::specs::Parsers::token))]
pub fn take_sign(tokens: &mut Cursor<'_>) -> Result<Sign, ParseErr>
    ensures { Reads (parser.token (spec.word_test words.sign_by_word) tokens.old) result tokens.new }
{
    let word = sign_next(tokens);
    taken(tokens, word)
}

/// The sign (A.2.2.1, signing), where it comes next.
pub fn maybe_sign(tokens: &mut Cursor<'_>) -> Result<Option<Sign>, ParseErr>
    ensures { Reads (parser.maybe_read (spec.word_test words.sign_by_word) (parser.token (spec.word_test words.sign_by_word)) tokens.old) result tokens.new }
{
    match sign_next(tokens) {
        Some(_) => {
            let word = take_sign(tokens)?;
            Ok(Some(word))
        }
        None => Ok(None),
    }
}

fn bits_of(word: Keyword) -> Option<BitsWord>
    ensures { result ≡ words.bits_by_word word }
{
    match word {
        Keyword::Logic => Some(BitsWord::Logic),
        Keyword::Reg => Some(BitsWord::Reg),
        _ => None,
    }
}

/// The word of a vector of bits (A.2.2.1, integer_vector_type) that comes next.
#[tactic(auto, using(crate::proofs::Firsts::word_first))]
pub fn bits_next(tokens: &Cursor<'_>) -> Option<BitsWord>
    ensures { result ≡ told (spec.word_test words.bits_by_word) tokens.now }
{
    match tokens.sort() {
        Sort::Keyword(word) => bits_of(word),
        _ => None,
    }
}

/// The word of a vector of bits (A.2.2.1, integer_vector_type) that has to come next (`Syntax` where it does not).
#[tactic(auto, unfolding(sv_cursor::specs::Parsers::token))]
pub fn take_bits(tokens: &mut Cursor<'_>) -> Result<BitsWord, ParseErr>
    ensures { Reads (parser.token (spec.word_test words.bits_by_word) tokens.old) result tokens.new }
{
    let word = bits_next(tokens);
    taken(tokens, word)
}

fn whole_of(word: Keyword) -> Option<WholeWord>
    ensures { result ≡ words.whole_by_word word }
{
    match word {
        Keyword::Int => Some(WholeWord::Int),
        Keyword::Integer => Some(WholeWord::Integer),
        _ => None,
    }
}

/// The word of a whole number (A.2.2.1, integer_atom_type) that comes next.
#[tactic(auto, using(crate::proofs::Firsts::word_first))]
pub fn whole_next(tokens: &Cursor<'_>) -> Option<WholeWord>
    ensures { result ≡ told (spec.word_test words.whole_by_word) tokens.now }
{
    match tokens.sort() {
        Sort::Keyword(word) => whole_of(word),
        _ => None,
    }
}

/// The word of a whole number (A.2.2.1, integer_atom_type) that has to come next (`Syntax` where it does not).
#[tactic(auto, unfolding(sv_cursor::specs::Parsers::token))]
pub fn take_whole(tokens: &mut Cursor<'_>) -> Result<WholeWord, ParseErr>
    ensures { Reads (parser.token (spec.word_test words.whole_by_word) tokens.old) result tokens.new }
{
    let word = whole_next(tokens);
    taken(tokens, word)
}

fn param_bits_of(word: Keyword) -> Option<ParamBits>
    ensures { result ≡ words.param_bits_by_word word }
{
    match word {
        Keyword::Bit => Some(ParamBits::Bit),
        Keyword::Logic => Some(ParamBits::Logic),
        Keyword::Reg => Some(ParamBits::Reg),
        _ => None,
    }
}

/// The word of a parameter that is a vector of bits (A.2.2.1, integer_vector_type) that comes next.
#[tactic(auto, using(crate::proofs::Firsts::word_first))]
pub fn param_bits_next(tokens: &Cursor<'_>) -> Option<ParamBits>
    ensures { result ≡ told (spec.word_test words.param_bits_by_word) tokens.now }
{
    match tokens.sort() {
        Sort::Keyword(word) => param_bits_of(word),
        _ => None,
    }
}

/// The word of a parameter that is a vector of bits (A.2.2.1, integer_vector_type) that has to come next (`Syntax` where it does not).
#[tactic(auto, unfolding(sv_cursor::specs::Parsers::token))]
pub fn take_param_bits(tokens: &mut Cursor<'_>) -> Result<ParamBits, ParseErr>
    ensures { Reads (parser.token (spec.word_test words.param_bits_by_word) tokens.old) result tokens.new }
{
    let word = param_bits_next(tokens);
    taken(tokens, word)
}

fn param_of(word: Keyword) -> Option<ParamWord>
    ensures { result ≡ words.param_by_word word }
{
    match word {
        Keyword::Parameter => Some(ParamWord::Parameter),
        Keyword::Localparam => Some(ParamWord::Localparam),
        _ => None,
    }
}

/// The word of a parameter (A.2.1.1) that comes next.
#[tactic(auto, using(crate::proofs::Firsts::word_first))]
pub fn param_next(tokens: &Cursor<'_>) -> Option<ParamWord>
    ensures { result ≡ told (spec.word_test words.param_by_word) tokens.now }
{
    match tokens.sort() {
        Sort::Keyword(word) => param_of(word),
        _ => None,
    }
}

/// The word of a parameter (A.2.1.1) that has to come next (`Syntax` where it does not).
#[tactic(auto, unfolding(sv_cursor::specs::Parsers::token))]
pub fn take_param(tokens: &mut Cursor<'_>) -> Result<ParamWord, ParseErr>
    ensures { Reads (parser.token (spec.word_test words.param_by_word) tokens.old) result tokens.new }
{
    let word = param_next(tokens);
    taken(tokens, word)
}

/// The word of a parameter (A.2.1.1), where it comes next.
pub fn maybe_param(tokens: &mut Cursor<'_>) -> Result<Option<ParamWord>, ParseErr>
    ensures { Reads (parser.maybe_read (spec.word_test words.param_by_word) (parser.token (spec.word_test words.param_by_word)) tokens.old) result tokens.new }
{
    match param_next(tokens) {
        Some(_) => {
            let word = take_param(tokens)?;
            Ok(Some(word))
        }
        None => Ok(None),
    }
}

fn way_of(word: Keyword) -> Option<Way>
    ensures { result ≡ words.way_by_word word }
{
    match word {
        Keyword::Input => Some(Way::Input),
        Keyword::Output => Some(Way::Output),
        Keyword::Inout => Some(Way::Inout),
        _ => None,
    }
}

/// The direction of a port (A.1.3, port_direction) that comes next.
#[tactic(auto, using(crate::proofs::Firsts::word_first))]
pub fn way_next(tokens: &Cursor<'_>) -> Option<Way>
    ensures { result ≡ told (spec.word_test words.way_by_word) tokens.now }
{
    match tokens.sort() {
        Sort::Keyword(word) => way_of(word),
        _ => None,
    }
}

/// The direction of a port (A.1.3, port_direction) that has to come next (`Syntax` where it does not).
#[tactic(auto, unfolding(sv_cursor::specs::Parsers::token))]
pub fn take_way(tokens: &mut Cursor<'_>) -> Result<Way, ParseErr>
    ensures { Reads (parser.token (spec.word_test words.way_by_word) tokens.old) result tokens.new }
{
    let word = way_next(tokens);
    taken(tokens, word)
}

/// The direction of a port (A.1.3, port_direction), where it comes next.
pub fn maybe_way(tokens: &mut Cursor<'_>) -> Result<Option<Way>, ParseErr>
    ensures { Reads (parser.maybe_read (spec.word_test words.way_by_word) (parser.token (spec.word_test words.way_by_word)) tokens.old) result tokens.new }
{
    match way_next(tokens) {
        Some(_) => {
            let word = take_way(tokens)?;
            Ok(Some(word))
        }
        None => Ok(None),
    }
}

fn net_of(word: Keyword) -> Option<NetWord>
    ensures { result ≡ words.net_by_word word }
{
    match word {
        Keyword::Wire => Some(NetWord::Wire),
        Keyword::Tri => Some(NetWord::Tri),
        _ => None,
    }
}

/// The word of a net (A.2.2.1, net_type) that comes next.
#[tactic(auto, using(crate::proofs::Firsts::word_first))]
pub fn net_next(tokens: &Cursor<'_>) -> Option<NetWord>
    ensures { result ≡ told (spec.word_test words.net_by_word) tokens.now }
{
    match tokens.sort() {
        Sort::Keyword(word) => net_of(word),
        _ => None,
    }
}

/// The word of a net (A.2.2.1, net_type) that has to come next (`Syntax` where it does not).
#[tactic(auto, unfolding(sv_cursor::specs::Parsers::token))]
pub fn take_net(tokens: &mut Cursor<'_>) -> Result<NetWord, ParseErr>
    ensures { Reads (parser.token (spec.word_test words.net_by_word) tokens.old) result tokens.new }
{
    let word = net_next(tokens);
    taken(tokens, word)
}

/// The word of a net (A.2.2.1, net_type), where it comes next.
pub fn maybe_net(tokens: &mut Cursor<'_>) -> Result<Option<NetWord>, ParseErr>
    ensures { Reads (parser.maybe_read (spec.word_test words.net_by_word) (parser.token (spec.word_test words.net_by_word)) tokens.old) result tokens.new }
{
    match net_next(tokens) {
        Some(_) => {
            let word = take_net(tokens)?;
            Ok(Some(word))
        }
        None => Ok(None),
    }
}

fn uniq_of(word: Keyword) -> Option<Uniq>
    ensures { result ≡ words.uniq_by_word word }
{
    match word {
        Keyword::Unique => Some(Uniq::Unique),
        Keyword::Unique0 => Some(Uniq::Unique0),
        Keyword::Priority => Some(Uniq::Priority),
        _ => None,
    }
}

/// What is said of branches (A.6.6, unique_priority) that comes next.
#[tactic(auto, using(crate::proofs::Firsts::word_first))]
pub fn uniq_next(tokens: &Cursor<'_>) -> Option<Uniq>
    ensures { result ≡ told (spec.word_test words.uniq_by_word) tokens.now }
{
    match tokens.sort() {
        Sort::Keyword(word) => uniq_of(word),
        _ => None,
    }
}

/// What is said of branches (A.6.6, unique_priority) that has to come next (`Syntax` where it does not).
#[tactic(auto, unfolding(sv_cursor::specs::Parsers::token))]
pub fn take_uniq(tokens: &mut Cursor<'_>) -> Result<Uniq, ParseErr>
    ensures { Reads (parser.token (spec.word_test words.uniq_by_word) tokens.old) result tokens.new }
{
    let word = uniq_next(tokens);
    taken(tokens, word)
}

/// What is said of branches (A.6.6, unique_priority), where it comes next.
pub fn maybe_uniq(tokens: &mut Cursor<'_>) -> Result<Option<Uniq>, ParseErr>
    ensures { Reads (parser.maybe_read (spec.word_test words.uniq_by_word) (parser.token (spec.word_test words.uniq_by_word)) tokens.old) result tokens.new }
{
    match uniq_next(tokens) {
        Some(_) => {
            let word = take_uniq(tokens)?;
            Ok(Some(word))
        }
        None => Ok(None),
    }
}

fn case_of(word: Keyword) -> Option<CaseWord>
    ensures { result ≡ words.case_by_word word }
{
    match word {
        Keyword::Case => Some(CaseWord::Case),
        Keyword::Casez => Some(CaseWord::Casez),
        _ => None,
    }
}

/// The word of a case statement (A.6.7, case_keyword) that comes next.
#[tactic(auto, using(crate::proofs::Firsts::word_first))]
pub fn case_next(tokens: &Cursor<'_>) -> Option<CaseWord>
    ensures { result ≡ told (spec.word_test words.case_by_word) tokens.now }
{
    match tokens.sort() {
        Sort::Keyword(word) => case_of(word),
        _ => None,
    }
}

/// The word of a case statement (A.6.7, case_keyword) that has to come next (`Syntax` where it does not).
#[tactic(auto, unfolding(sv_cursor::specs::Parsers::token))]
pub fn take_case(tokens: &mut Cursor<'_>) -> Result<CaseWord, ParseErr>
    ensures { Reads (parser.token (spec.word_test words.case_by_word) tokens.old) result tokens.new }
{
    let word = case_next(tokens);
    taken(tokens, word)
}

fn edge_of(word: Keyword) -> Option<Edge>
    ensures { result ≡ words.edge_by_word word }
{
    match word {
        Keyword::Posedge => Some(Edge::Pos),
        Keyword::Negedge => Some(Edge::Neg),
        _ => None,
    }
}

/// The edge of an event (A.6.5, edge_identifier) that comes next.
#[tactic(auto, using(crate::proofs::Firsts::word_first))]
pub fn edge_next(tokens: &Cursor<'_>) -> Option<Edge>
    ensures { result ≡ told (spec.word_test words.edge_by_word) tokens.now }
{
    match tokens.sort() {
        Sort::Keyword(word) => edge_of(word),
        _ => None,
    }
}

/// The edge of an event (A.6.5, edge_identifier) that has to come next (`Syntax` where it does not).
#[tactic(auto, unfolding(sv_cursor::specs::Parsers::token))]
pub fn take_edge(tokens: &mut Cursor<'_>) -> Result<Edge, ParseErr>
    ensures { Reads (parser.token (spec.word_test words.edge_by_word) tokens.old) result tokens.new }
{
    let word = edge_next(tokens);
    taken(tokens, word)
}

fn event_mark_of_word(word: Keyword) -> Option<EventMark>
    ensures { result ≡ words.event_mark_by_word word }
{
    match word {
        Keyword::Or => Some(EventMark::Or),
        _ => None,
    }
}

fn event_mark_of_mark(mark: Mark) -> Option<EventMark>
    ensures { result ≡ words.event_mark_by_mark mark }
{
    match mark {
        Mark::Comma => Some(EventMark::Comma),
        _ => None,
    }
}

fn event_mark_of(sort: Sort) -> Option<EventMark>
    ensures { result ≡ words.event_mark_by_sort sort }
{
    match sort {
        Sort::Keyword(word) => event_mark_of_word(word),
        Sort::Mark(mark) => event_mark_of_mark(mark),
        _ => None,
    }
}

/// What parts events (A.6.5, event_expression) that comes next.
#[tactic(auto, using(crate::proofs::Firsts::sort_first))]
pub fn event_mark_next(tokens: &Cursor<'_>) -> Option<EventMark>
    ensures { result ≡ told (spec.sort_test words.event_mark_by_sort) tokens.now }
{
    event_mark_of(tokens.sort())
}

fn always_of(word: Keyword) -> Option<AlwaysWord>
    ensures { result ≡ words.always_by_word word }
{
    match word {
        Keyword::AlwaysComb => Some(AlwaysWord::Comb),
        Keyword::AlwaysLatch => Some(AlwaysWord::Latch),
        Keyword::AlwaysFf => Some(AlwaysWord::Ff),
        Keyword::Always => Some(AlwaysWord::Always),
        _ => None,
    }
}

/// The word of a block (A.6.2, always_construct) that comes next.
#[tactic(auto, using(crate::proofs::Firsts::word_first))]
pub fn always_next(tokens: &Cursor<'_>) -> Option<AlwaysWord>
    ensures { result ≡ told (spec.word_test words.always_by_word) tokens.now }
{
    match tokens.sort() {
        Sort::Keyword(word) => always_of(word),
        _ => None,
    }
}

fn step_of(mark: Mark) -> Option<StepMark>
    ensures { result ≡ words.step_by_mark mark }
{
    match mark {
        Mark::Increment => Some(StepMark::Inc),
        Mark::Decrement => Some(StepMark::Dec),
        _ => None,
    }
}

/// The mark of a step by one (A.6.2, inc_or_dec_operator) that comes next.
#[tactic(auto, using(crate::proofs::Firsts::sign_first))]
pub fn step_next(tokens: &Cursor<'_>) -> Option<StepMark>
    ensures { result ≡ told (spec.sign_test words.step_by_mark) tokens.now }
{
    match tokens.sort() {
        Sort::Mark(mark) => step_of(mark),
        _ => None,
    }
}

/// The mark of a step by one (A.6.2, inc_or_dec_operator) that has to come next (`Syntax` where it does not).
#[tactic(auto, unfolding(sv_cursor::specs::Parsers::token))]
pub fn take_step(tokens: &mut Cursor<'_>) -> Result<StepMark, ParseErr>
    ensures { Reads (parser.token (spec.sign_test words.step_by_mark) tokens.old) result tokens.new }
{
    let mark = step_next(tokens);
    taken(tokens, mark)
}

fn step_sign_of(mark: Mark) -> Option<StepSign>
    ensures { result ≡ words.step_sign_by_mark mark }
{
    match mark {
        Mark::Assign => Some(StepSign::Set),
        Mark::PlusAssign => Some(StepSign::Add),
        Mark::MinusAssign => Some(StepSign::Sub),
        _ => None,
    }
}

/// The mark of a step by an expression (A.6.2, assignment_operator) that comes next.
#[tactic(auto, using(crate::proofs::Firsts::sign_first))]
pub fn step_sign_next(tokens: &Cursor<'_>) -> Option<StepSign>
    ensures { result ≡ told (spec.sign_test words.step_sign_by_mark) tokens.now }
{
    match tokens.sort() {
        Sort::Mark(mark) => step_sign_of(mark),
        _ => None,
    }
}

/// The mark of a step by an expression (A.6.2, assignment_operator) that has to come next (`Syntax` where it does not).
#[tactic(auto, unfolding(sv_cursor::specs::Parsers::token))]
pub fn take_step_sign(tokens: &mut Cursor<'_>) -> Result<StepSign, ParseErr>
    ensures { Reads (parser.token (spec.sign_test words.step_sign_by_mark) tokens.old) result tokens.new }
{
    let mark = step_sign_next(tokens);
    taken(tokens, mark)
}
