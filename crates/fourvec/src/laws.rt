//! The laws of the operators, each proved for all vectors.

ghost use Rattle.std.specs.Prelude.{◌≡◌, ℕ, List, IsPermutation};
ghost use Rattle.fourvec.specs.declared.Bit.{Bit};
ghost use Rattle.fourvec.specs.declared.Spot.{Spot};
ghost use Rattle.fourvec.specs.Bits.{unfloat_of, not_of, neg_of, red_and_of, red_or_of, red_xor_of, truth_of, and_of, or_of, xor_of, res_of, eq_of, lt_of, slt_of, add_of, sub_of, mul_of, div_of, rem_of, sdiv_of, srem_of, shl_of, shr_of, sar_of, concat_of, slice_of, zext_of, sext_of, cond_of, pick_of};
ghost use Rattle.fourvec.specs.Spots.{dyn_slice_of, dyn_put_of};
ghost use Rattle.fourvec.specs.Laws.{Monotone, MonotonePair, MonotoneChoice, MonotonePut, resolution};

/// In the order in which X is least, an operator's result is above where its vectors are above.
pub fn operators_are_monotone()
    ensures unfloat { Monotone unfloat_of }
    ensures not { Monotone not_of }
    ensures neg { Monotone neg_of }
    ensures red_and { Monotone red_and_of }
    ensures red_or { Monotone red_or_of }
    ensures red_xor { Monotone red_xor_of }
    ensures truth { Monotone truth_of }
    ensures and { MonotonePair and_of }
    ensures or { MonotonePair or_of }
    ensures xor { MonotonePair xor_of }
    ensures eq { MonotonePair eq_of }
    ensures lt { MonotonePair lt_of }
    ensures slt { MonotonePair slt_of }
    ensures add { MonotonePair add_of }
    ensures sub { MonotonePair sub_of }
    ensures mul { MonotonePair mul_of }
    ensures div { MonotonePair div_of }
    ensures rem { MonotonePair rem_of }
    ensures sdiv { MonotonePair sdiv_of }
    ensures srem { MonotonePair srem_of }
    ensures res { MonotonePair res_of }
    ensures shl { MonotonePair shl_of }
    ensures shr { MonotonePair shr_of }
    ensures sar { MonotonePair sar_of }
    ensures concat { MonotonePair concat_of }
    ensures cond { MonotoneChoice cond_of }
    ensures pick { MonotoneChoice pick_of }
    ensures slice { (lo width : ℕ) → Monotone (λ a. slice_of a lo width) }
    ensures zext { (width : ℕ) → Monotone (λ a. zext_of a width) }
    ensures sext { (width : ℕ) → Monotone (λ a. sext_of a width) }
    ensures dyn_slice { (spot : Spot) → MonotonePair (λ a at. dyn_slice_of a at spot) }
    ensures dyn_put { (spot : Spot) → MonotonePut (λ a at put. dyn_put_of a at spot put) }
{}

/// The order of the contributions of a wire's drivers does not change what they give together.
#[tactic(auto, using(crate::proofs::Resolution::resolution_permuted))]
pub fn order_of_contributions_is_free()
    ensures { (width : ℕ) (xs ys : List (List Bit)) → IsPermutation xs ys → resolution width xs ≡ resolution width ys }
{}
