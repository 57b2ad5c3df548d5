// What an induction is over, and what is said of an invariant.
ghost use Rattle.std.specs.Prelude.{◌≡◌, ◌<◌, [], length, slice_index_or};

use cnf::Cnf;
use flat_net::Valuation;
use fourvec::Four;
use items::Items;
use lhs_alias::{Lhs, Seg};
use phase_fsm::Fsm;
use refute_check::Log;
use svex_arena::Node;
use svtv_table::Bound;

/// The machine of a design under a table, and claims over what the table samples.
pub struct Half {
    /// Its arena has the nodes of the claims.
    pub fsm: Fsm,
    pub bound: Bound,
    /// For each wire the first bits of the classes of joined bits that its bits are in.
    pub firsts: Items<Lhs>,
    /// For each invariant its claims, over the samples of the table.
    pub claims: Items<Items<Node>>,
}

impl Drop for Half {
    fn drop(self) {
        let Half {
            fsm: _,
            bound: _,
            firsts: _,
            claims: _,
        } = self;
    }
}

/// What is said of an invariant: a failure of the base has a vector for each variable of the reset, one of the step a vector for each
/// variable of the period and the valuation before it.
#[derive(Drop)]
pub enum Inducted {
    Invariant,
    BaseFails(Items<Four>),
    StepFails {
        choice: Items<Four>,
        state: Valuation,
    },
    Undecided(Cnf, Log),
}

/// The segments of a number.
pub(crate) fn segs_at(firsts: &[Lhs], at: usize) -> &[Seg]
    requires { at < length firsts.now }
    ensures { result.now ≡ slice_index_or firsts.now at [] }
{
    firsts[at].segs()
}
