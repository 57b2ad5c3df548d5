// The ports of a module's header (IEEE 1800-2017, 23.2.2).
ghost use Rattle.std.specs.Prelude.{◌≡◌, [], ◌∷◌, ◌++◌, false, map, IfOk, OnOk};
ghost use Rattle.sv_tree.specs.declared.design.Way.TheVariants as way;
ghost use Rattle.sv_names.specs.Kinds.{IsSound, layout_is};
ghost use Rattle.sv_meaning.specs.Layouts as layouts;
ghost use Rattle.sv_hierarchy.specs.Scopes.{header_ports, is_bare, port_form};
ghost use Rattle.sv_levels.specs.Ports.{PortsAreSound, one_port, port_is};
ghost use Rattle.sv_walk.specs.Walks.{Finds};

use crate::walker::{Open, Walker};
use std::alloc::AllocError;
use sv_levels::{OpenPort, is_bare, is_read};
use sv_names::{Layout, scalar};
use sv_outside::TextErr;
use sv_tree::{Port, Way};
use sv_types::copy;

// A port more, whose layout the next may take over.
fn put_port<'a>(one: OpenPort<'a>, ports: &mut Vec<OpenPort<'a>>) -> Result<Layout, AllocError>
    requires { IsSound one.layout }
    ensures ports { OnOk result (ports.new.items ≡ ports.old.items ++ one.entry ∷ []) }
    ensures layout { IfOk result (λ layout. layout ≡ one.entry.layout) }
{
    let layout = copy(*ports.allocator(), &one.layout)?;
    ports.push(one)?;
    Ok(layout)
}

impl<'a> Walker<'a> {
    // The layout of a port: where nothing but the name is written that of the port before it, and one bit where no type is.
    fn port_form(
        &mut self,
        current: &mut Open<'a>,
        port: &Port,
        before: &Layout,
    ) -> Result<Layout, TextErr>
        requires { IsSound before.now }
        ensures is { Finds (λ x layout. x ≡ layout_is layout) (port_form port.now (layout_is before.now)) self.old current.old self.new current.new result }
        ensures sound { IfOk result (λ layout. IsSound layout) }
    {
        if is_bare(port) {
            return Ok(copy(self.alloc, before)?);
        }
        match &port.form {
            Some(tree) => self.formed(current, tree),
            None => Ok(scalar(false)),
        }
    }

    // A port, as a wire of an instance, behind a port of such a direction and layout.
    fn open_port(
        &mut self,
        current: &mut Open<'a>,
        top: bool,
        way: Way,
        before: &Layout,
        port: &'a Port,
    ) -> Result<OpenPort<'a>, TextErr>
        requires { IsSound before.now }
        ensures is { Finds (λ x one. x ≡ port_is one) (one_port top way (layout_is before.now) port.now) self.old current.old self.new current.new result }
        ensures sound { IfOk result (λ one. IsSound one.layout) }
    {
        let layout = self.port_form(current, port, before)?;
        let way = port.way.unwrap_or(way);
        let wire = self.wires.len();
        self.add_wire(current, is_read(top, way), &layout, &port.name)?;
        Ok(OpenPort {
            name: &port.name,
            way,
            wire,
            layout,
        })
    }

    /// The ports of a module, as the wires of an instance. Those of the top are read from outside where they are no outputs.
    pub(crate) fn header_ports(
        &mut self,
        current: &mut Open<'a>,
        top: bool,
        list: &'a [Port],
    ) -> Result<Vec<OpenPort<'a>>, TextErr>
        ensures is { Finds (λ x ports. x ≡ map port_is ports.items) (header_ports top way.Input (layouts.scalar false) list.now) self.old current.old self.new current.new result }
        ensures sound { IfOk result (λ ports. PortsAreSound ports.items) }
    {
        let mut ports = Vec::new(self.alloc);
        let mut way = Way::Input;
        let mut before = scalar(false);
        'list: for port in list {
            let one = self.open_port(current, top, way, &before, port)?;
            way = one.way;
            before = put_port(one, &mut ports)?;
        }
        Ok(ports)
    }
}
