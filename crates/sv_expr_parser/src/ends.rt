// Where an expression can end, as far as brackets and `?` tell: where none is open and the last token may end an operand. That
// is a condition that every expression meets and one pass over the tokens tells, so that the search for the longest expression
// tries few fronts; which of these are expressions only the reader says.
ghost use Rattle.std.specs.Prelude.{ℕ, ◌≡◌, ◌+◌, ◌<◌, ◌≤◌, ◌^◌, length};
ghost use Rattle.sv_expr_parser.specs.Ends as spec;
ghost use Rattle.sv_expr_parser.specs.Ends.{CanEnd};

use sv_cursor::{Mark, Sort, sort_of};
use sv_outside::Token;

/// What is open behind the first tokens of an expression.
#[derive(Clone, Copy)]
pub struct Open {
    /// How many brackets are behind.
    pub brackets: usize,
    /// How many `?` outside of brackets lack their `:`.
    pub questions: usize,
    /// Whether the last token may end an operand.
    pub ends: bool,
}

fn asked(behind: Open) -> Open
    requires { behind.questions + 1 < 2 ^ 64 }
    ensures { result ≡ spec.asked behind }
{
    if behind.brackets == 0 {
        Open {
            brackets: behind.brackets,
            questions: behind.questions + 1,
            ends: false,
        }
    } else {
        Open {
            brackets: behind.brackets,
            questions: behind.questions,
            ends: false,
        }
    }
}

fn answered(behind: Open) -> Open
    ensures { result ≡ spec.answered behind }
{
    if behind.brackets == 0 {
        Open {
            brackets: behind.brackets,
            questions: behind.questions.saturating_sub(1),
            ends: false,
        }
    } else {
        Open {
            brackets: behind.brackets,
            questions: behind.questions,
            ends: false,
        }
    }
}

fn after_mark(behind: Open, mark: Mark) -> Open
    requires brackets { behind.brackets + 1 < 2 ^ 64 }
    requires questions { behind.questions + 1 < 2 ^ 64 }
    ensures { result ≡ spec.after_mark mark behind }
{
    match mark {
        Mark::LeftParen | Mark::LeftBracket | Mark::LeftBrace => Open {
            brackets: behind.brackets + 1,
            questions: behind.questions,
            ends: false,
        },
        Mark::RightParen | Mark::RightBracket | Mark::RightBrace => Open {
            brackets: behind.brackets.saturating_sub(1),
            questions: behind.questions,
            ends: true,
        },
        Mark::Question => asked(behind),
        Mark::Colon => answered(behind),
        _ => Open {
            brackets: behind.brackets,
            questions: behind.questions,
            ends: false,
        },
    }
}

fn after(behind: Open, sort: Sort) -> Open
    requires brackets { behind.brackets + 1 < 2 ^ 64 }
    requires questions { behind.questions + 1 < 2 ^ 64 }
    ensures { result ≡ spec.after_sort sort behind }
{
    match sort {
        Sort::Id | Sort::Literal => Open {
            brackets: behind.brackets,
            questions: behind.questions,
            ends: true,
        },
        Sort::Mark(mark) => after_mark(behind, mark),
        _ => Open {
            brackets: behind.brackets,
            questions: behind.questions,
            ends: false,
        },
    }
}

fn may_end(behind: Open) -> bool
    ensures { result ≡ spec.may_end behind }
{
    if behind.brackets == 0 {
        if behind.questions == 0 {
            behind.ends
        } else {
            false
        }
    } else {
        false
    }
}

/// The most of these tokens behind which an expression can end, as far as brackets tell, and 0 where there are none.
pub fn last_end(tokens: &[Token]) -> usize
    ensures within { result ≤ length tokens.now }
    ensures last { (n : ℕ) → n ≤ length tokens.now → CanEnd tokens.now n → n ≤ result }
{
    let mut behind = Open {
        brackets: 0,
        questions: 0,
        ends: false,
    };
    let mut last = 0;
    for (i, token) in tokens.iter().enumerate() {
        behind = after(behind, sort_of(token));
        if may_end(behind) {
            last = i + 1;
        }
    }
    last
}
