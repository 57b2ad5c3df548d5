// Modules and whole texts are written (A.1). Modules stand in no other part, so what is here is no cycle and calls the writers
// of items, types and parameters. Lists that are empty are told apart, since parentheses with nothing in them stand for some
// parts of the header and are left out for others.
ghost use Rattle.sv_write.specs.Adds.{Adds};
ghost use Rattle.sv_write.specs.Writing as writing;
ghost use Rattle.sv_write.specs.Modules as spec;

use crate::{Writer, commas, end, items, param, typedef};
use items::Items;
use sv_tree::{Module, ParPort, Port, Source, SourcePart};

fn params(out: &mut Writer, all: &[ParPort])
    ensures { Adds (spec.write_params all.now) out.old out.new }
{
    match all {
        [] => {}
        [_, ..] => {
            out.mark(b"#");
            out.mark(b"(");
            commas(out, all);
            out.mark(b")")
        }
    }
}

fn header(out: &mut Writer, all: &[Port])
    ensures { Adds (spec.write_ports all.now) out.old out.new }
{
    out.mark(b"(");
    commas(out, all);
    out.mark(b")")
}

fn maybe_header(out: &mut Writer, given: &Option<Items<Port>>)
    ensures { Adds (writing.maybe spec.write_ports given.now) out.old out.new }
{
    match given {
        Some(part) => header(out, part.as_slice()),
        None => {}
    }
}

// What stands before the items of a module.
fn head(out: &mut Writer, x: &Module)
    ensures { Adds (spec.head x.now) out.old out.new }
{
    out.key(b"module");
    out.name(&x.name);
    params(out, x.params.as_slice());
    maybe_header(out, &x.ports);
    out.mark(b";")
}

fn module(out: &mut Writer, x: &Module)
    ensures { Adds (spec.write_module x.now) out.old out.new }
{
    head(out, x);
    items(out, x.items.as_slice());
    end(out, b"endmodule", &x.label)
}

fn source_part(out: &mut Writer, x: &SourcePart)
    ensures { Adds (spec.write_part x.now) out.old out.new }
{
    match x {
        SourcePart::Module(inner) => module(out, inner),
        SourcePart::Typedef(inner) => typedef(out, inner),
        SourcePart::Param(inner) => param(out, inner),
    }
}

fn parts(out: &mut Writer, all: &[SourcePart])
    ensures { Adds (writing.each spec.write_part all.now) out.old out.new }
{
    'parts: for part in all {
        source_part(out, part);
    }
}

pub fn source(out: &mut Writer, x: &Source)
    ensures { Adds (spec.write_source x.now) out.old out.new }
{
    parts(out, x.parts.as_slice())
}
