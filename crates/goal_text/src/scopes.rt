// The variables and samples of a table as names. They are unsigned vectors with a range down to 0, as wires of a source may be,
// so that goals may select bits of them, and the rules of expressions are those of the source. Two scopes serve both kinds of
// names: claims see the samples on top of the variables.
ghost use Rattle.std.specs.Prelude.{◌≡◌, ◌++◌, ◌≤◌, All, IfOk, IsTrue, false};
ghost use Rattle.goal_text.specs.Scopes.{variable_entries, sample_entries};
ghost use Rattle.sv_names.specs.Kinds.{layout_is, entries_are, IsSound};
ghost use Rattle.sv_names.specs.Names.{names_are};
ghost use Rattle.sv_meaning.specs.Layouts.{count_between, dim, plain, scalar, scope_of};
ghost use Rattle.sv_meaning.specs.Meanings.{is_bound};
ghost use Rattle.svtv_table.specs.Binding.{HasWidth};

use std::alloc::{AllocError, Global};
use sv_names::{Form, Layout, NameDigest, Names, Scope, Shared, What, scalar};
use svtv_table::{Sample, VarDecl};

// [left:right], unsigned, where that has so many bits.
fn range(alloc: Global, width: u8, left: i64, right: i64) -> Result<Layout, AllocError>
    requires some { 1 ≤ width }
    requires most { width ≤ 128 }
    requires left { IsTrue (is_bound left) }
    requires right { IsTrue (is_bound right) }
    requires bits { width ≡ count_between left right }
    ensures is { IfOk result (λ x. layout_is x ≡ dim false left right (scalar false)) }
    ensures sound { IfOk result IsSound }
{
    let each = Shared::new(alloc, scalar(false))?;
    let form = Form::Dim { left, right, each };
    Ok(Layout {
        width,
        signed: false,
        depth: 1,
        form,
    })
}

// [width-1:0], unsigned.
fn vector(alloc: Global, width: u8) -> Result<Layout, AllocError>
    requires some { 1 ≤ width }
    requires most { width ≤ 128 }
    ensures is { IfOk result (λ x. layout_is x ≡ plain width false) }
    ensures sound { IfOk result IsSound }
{
    let left = i64::from(width - 1);
    range(alloc, width, left, 0)
}

// A digest of the names of variables.
fn variables_key(vars: &[VarDecl]) -> u128 {
    let mut digest = NameDigest::new();
    'vars: for var in vars {
        digest.take(var.name.bytes());
    }
    digest.key()
}

// A digest of the names of samples.
fn samples_key(samples: &[Sample]) -> u128 {
    let mut digest = NameDigest::new();
    'samples: for sample in samples {
        digest.take(sample.name.bytes());
    }
    digest.key()
}

/// The variables of a table.
pub fn variables(alloc: Global, vars: &[VarDecl]) -> Result<Scope, AllocError>
    requires { All (λ var. HasWidth var.width) vars.now }
    ensures { IfOk result (λ scope. entries_are scope ≡ variable_entries vars.now) }
{
    let mut scope = Scope::new(alloc, variables_key(vars));
    'vars: for (number, var) in vars.iter().enumerate() {
        let layout = vector(alloc, var.width)?;
        let name = var.name.copy()?;
        scope.push(name, What::Chosen { number, layout })?;
    }
    Ok(scope)
}

/// The samples of a table.
pub fn sampled(alloc: Global, samples: &[Sample]) -> Result<Scope, AllocError>
    requires { All (λ sample. HasWidth sample.width) samples.now }
    ensures { IfOk result (λ scope. entries_are scope ≡ sample_entries samples.now) }
{
    let mut scope = Scope::new(alloc, samples_key(samples));
    'samples: for (number, sample) in samples.iter().enumerate() {
        let layout = vector(alloc, sample.width)?;
        let name = sample.name.copy()?;
        scope.push(name, What::Sampled { number, layout })?;
    }
    Ok(scope)
}

/// What hypotheses name: variables. No loop is entered, so the map of the names of loops needs no key.
pub fn hyp_names<'a>(alloc: Global, variables: &'a Scope) -> Result<Names<'a>, AllocError>
    ensures { IfOk result (λ names. names_are names ≡ scope_of (entries_are variables.now)) }
{
    let count = variables.len();
    let mut names = Names::new(alloc, 0);
    names.push_scope(variables, count, count)?;
    Ok(names)
}

/// What claims name: variables and samples.
pub fn claim_names<'a>(
    alloc: Global,
    variables: &'a Scope,
    samples: &'a Scope,
) -> Result<Names<'a>, AllocError>
    ensures { IfOk result (λ names. names_are names ≡ scope_of (entries_are variables.now ++ entries_are samples.now)) }
{
    let (count, sampled) = (variables.len(), samples.len());
    let mut names = Names::new(alloc, 0);
    names.push_scope(variables, count, count)?;
    names.push_scope(samples, sampled, sampled)?;
    Ok(names)
}
