// Copies of layouts. What a layout is made of is shared; it is made again only where its owners can no longer be counted, so that
// what answers want of memory has asked for some.
ghost use Rattle.std.specs.Prelude.{◌≡◌, IfOk};

use items::Items;
use std::alloc::{AllocError, Global};
use sv_names::{Field, Form, Layout, Shared};

/// The same layout again. It fails only for want of memory.
#[cycle(copy)]
pub fn copy(alloc: Global, layout: &Layout) -> Result<Layout, AllocError>
    ensures { IfOk result (λ x. x ≡ layout.now) }
{
    let form = match &layout.form {
        Form::Scalar => Form::Scalar,
        Form::Dim { left, right, each } => Form::Dim {
            left: *left,
            right: *right,
            each: share_layout(alloc, each)?,
        },
        Form::Members(fields) => Form::Members(share_fields(alloc, fields)?),
    };
    Ok(Layout {
        width: layout.width,
        signed: layout.signed,
        depth: layout.depth,
        form,
    })
}

// The same layout, with one owner more, or as a value of its own.
#[cycle(copy)]
fn share_layout(alloc: Global, layout: &Shared<Layout>) -> Result<Shared<Layout>, AllocError>
    ensures { IfOk result (λ x. x ≡ layout.now) }
{
    match layout.share() {
        Some(shared) => Ok(shared),
        None => {
            let made = copy(alloc, layout.get())?;
            Shared::new(alloc, made)
        }
    }
}

// The same members, with one owner more, or as a list of its own.
#[cycle(copy)]
fn share_fields(
    alloc: Global,
    fields: &Shared<Items<Field>>,
) -> Result<Shared<Items<Field>>, AllocError>
    ensures { IfOk result (λ x. x ≡ fields.now) }
{
    match fields.share() {
        Some(shared) => Ok(shared),
        None => {
            let made = copy_fields(alloc, fields.get().as_slice())?;
            Shared::new(alloc, made)
        }
    }
}

// The same members again.
#[cycle(copy)]
fn copy_fields(alloc: Global, fields: &[Field]) -> Result<Items<Field>, AllocError>
    ensures { IfOk result (λ all. all ≡ fields.now) }
{
    let mut all = Items::new(alloc);
    'fields: for field in fields {
        let layout = copy(alloc, &field.layout)?;
        let name = field.name.copy()?;
        all.push(Field { name, layout })?;
    }
    Ok(all)
}
