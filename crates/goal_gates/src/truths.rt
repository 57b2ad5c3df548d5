// Conjunctions of the truths of nodes. A node is 1 where both of its rails are.
ghost use Rattle.std.specs.Prelude.{◌≡◌, ◌+◌, ◌*◌, ◌&&◌, not, true, [], All, IfOk, OnOk, length};
ghost use Rattle.std.specs.List.{list_all};
ghost use Rattle.aig.specs.Graph.{IsGraph, IsIn, constant_lit, value};
ghost use Rattle.goal_gates.specs.Gating.{GrowsBy, HasFirst, IsTruth, is_top};

use aig::{Aig, Lit};
use std::alloc::AllocError;
use svex_blast::Rails;

// A literal and the truth of one node more.
fn with_truth(aig: &mut Aig, all: Lit, rails: &Rails) -> Result<Lit, AllocError>
    requires all_in { IsIn aig.old all }
    requires first { HasFirst aig.old rails.now }
    ensures truth { IfOk result (IsTruth aig.new (λ inputs. value inputs aig.old all && is_top inputs aig.old rails.now)) }
    ensures grew { OnOk result (GrowsBy 2 aig.old aig.new) }
{
    let one = aig.and(rails.up[0], rails.low[0])?;
    let both = aig.and(all, one)?;
    Ok(both)
}

/// The literal that is true where all nodes are 1.
fn all_true(aig: &mut Aig, rails: &[Rails]) -> Result<Lit, AllocError>
    requires first { All (HasFirst aig.old) rails.now }
    ensures truth { IfOk result (IsTruth aig.new (λ inputs. list_all (is_top inputs aig.old) rails.now)) }
    ensures grew { OnOk result (GrowsBy (2 * length rails.now) aig.old aig.new) }
    ensures none { IfOk result (λ l. rails.now ≡ [] → l ≡ constant_lit true) }
{
    // For the proof: recalls what the type promises of it.
    let _ = aig.len();
    let mut all = Lit::constant(true);
    'nodes: for part in rails {
        all = with_truth(aig, all, part)?;
    }
    Ok(all)
}

/// The literals that are true where the hypotheses are met, and where they are and some claim is not 1.
pub fn literals(aig: &mut Aig, hyps: &[Rails], claims: &[Rails]) -> Result<(Lit, Lit), AllocError>
    requires hyps { All (HasFirst aig.old) hyps.now }
    requires claims { All (HasFirst aig.old) claims.now }
    ensures met { IfOk result (λ p. IsTruth aig.new (λ inputs. list_all (is_top inputs aig.old) hyps.now) p.0) }
    ensures broken { IfOk result (λ p. IsTruth aig.new (λ inputs. list_all (is_top inputs aig.old) hyps.now && not (list_all (is_top inputs aig.old) claims.now)) p.1) }
    ensures grew { OnOk result (GrowsBy (4 * (length hyps.now + length claims.now)) aig.old aig.new) }
    ensures graph { OnOk result (IsGraph aig.new) }
{
    let met = all_true(aig, hyps)?;
    let kept = all_true(aig, claims)?;
    let broken = aig.and(met, !kept)?;
    Ok((met, broken))
}
