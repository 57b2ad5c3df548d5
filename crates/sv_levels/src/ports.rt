// The ports of an instance, and what they are connected to (IEEE 1800-2017, 23.2.2 and 23.3.2). Each connection becomes a task
// at the place of the instance, where its expression is read, and is carried out later with all other tasks. Ports are found by
// a hash index of their names, and tasks follow the order of the connections. Only the inputs of the top are read from outside.
ghost use Rattle.std.specs.Prelude.{◌≡◌, ◌&&◌, [], ◌∷◌, ◌++◌, map, Some, IfOk, IfSome, OnOk, option_map};
ghost use Rattle.std.specs.Option.{option_copied};
ghost use Rattle.sv_names.specs.Kinds.{IsSound};
ghost use Rattle.sv_modules.specs.Connections.{connection_is, joined_is};
ghost use Rattle.name_index.specs.Indexing.{Indexes};
ghost use Rattle.sv_modules.specs.Naming.{texts_of};
ghost use Rattle.sv_hierarchy.specs.Scopes as m;
ghost use Rattle.sv_hierarchy.specs.Scopes.{is_bare, is_input};
ghost use Rattle.sv_levels.specs.Levels.{front_is};
ghost use Rattle.sv_levels.specs.Ports.{PortsAreSound, port_is, port_name};
ghost use Rattle.sv_levels.specs.Tasks.{actual_is, given_is, work_is};

use crate::levels::Front;
use crate::tasks::{Actual, Given, Task, Work};
use name_index::NameIndex;
use std::alloc::{AllocError, Global};
use sv_modules::{Connection, Joined};
use sv_names::Layout;
use sv_tree::{Module, Port, Way, Word};
use sv_types::copy;

/// A port of an instance: its name, direction, wire and layout.
pub struct OpenPort<'a> {
    pub name: &'a Word,
    pub way: Way,
    pub wire: usize,
    pub layout: Layout,
}

impl Drop for OpenPort<'_> {
    fn drop(self) {
        let OpenPort {
            name: _,
            way: _,
            wire: _,
            layout: _,
        } = self;
    }
}

/// Whether a port is read from outside; those of instances below the top are not.
pub fn is_read(top: bool, way: Way) -> bool
    ensures { result ≡ (top && is_input way) }
{
    match way {
        Way::Input => top,
        Way::Output => false,
        Way::Inout => top,
    }
}

/// Whether nothing but the name is written.
pub fn is_bare(port: &Port) -> bool
    ensures { result ≡ is_bare port.now }
{
    port.way.is_none() && port.kind.is_none() && port.form.is_none()
}

// What stands behind a name, where it is not left current.
fn actual_of<'a>(connection: &Connection<'a>) -> Option<Actual<'a>>
    ensures { option_map actual_is result ≡ joined_is connection.now.name.now connection.now.joined }
{
    match connection.joined {
        Joined::Same => Some(Actual::Named(connection.name)),
        Joined::Open => None,
        Joined::Given(expr) => Some(Actual::Written(expr)),
    }
}

// Where each name stands first among the ports.
fn index_of(alloc: Global, key: u128, ports: &[OpenPort<'_>]) -> Result<NameIndex, AllocError>
    ensures { IfOk result (λ index. Indexes index (map port_name ports.now)) }
{
    let mut index = NameIndex::new(alloc, key);
    'ports: for (number, port) in ports.iter().enumerate() {
        index.note(port.name.text.bytes(), number)?;
    }
    Ok(index)
}

// The first port of a name.
fn port_named<'p, 'a>(
    index: &NameIndex,
    name: &[u8],
    ports: &'p [OpenPort<'a>],
) -> Option<&'p OpenPort<'a>>
    requires sound { PortsAreSound ports.now }
    requires indexed { Indexes index.now (map port_name ports.now) }
    ensures is { option_map port_is (option_copied result) ≡ m.port_named name.now (map port_is ports.now) }
    ensures sound { IfSome result (λ port. IsSound port.now.layout) }
{
    match index.number(name) {
        Some(number) => ports.get(number),
        None => None,
    }
}

/// One task more for each port that is connected, in the order of the connections. The key is a digest of the text.
pub fn add_port_works<'a>(
    alloc: Global,
    key: u128,
    at: Front,
    connections: &[Connection<'a>],
    ports: &[OpenPort<'a>],
    works: &mut Vec<Work<'a>>,
) -> Result<(), AllocError>
    requires { PortsAreSound ports.now }
    ensures { OnOk result (map work_is works.new.items ≡ map work_is works.old.items ++ m.port_works (front_is at) (map connection_is connections.now) (map port_is ports.now)) }
{
    let index = index_of(alloc, key, ports)?;
    'connections: for connection in connections {
        add_port_work(at, connection, &index, ports, works)?;
    }
    Ok(())
}

// The task of a connection, if something is connected and there is such a port.
fn add_port_work<'a>(
    at: Front,
    connection: &Connection<'a>,
    index: &NameIndex,
    ports: &[OpenPort<'a>],
    works: &mut Vec<Work<'a>>,
) -> Result<(), AllocError>
    requires sound { PortsAreSound ports.now }
    requires indexed { Indexes index.now (map port_name ports.now) }
    ensures { OnOk result (map work_is works.new.items ≡ map work_is works.old.items ++ m.connected (front_is at) (m.port_named connection.now.name.now.text (map port_is ports.now)) (joined_is connection.now.name.now connection.now.joined)) }
{
    match actual_of(connection) {
        Some(actual) => add_connected(at, connection.name, actual, index, ports, works),
        None => Ok(()),
    }
}

// The task of a port of a name, if there is one.
fn add_connected<'a>(
    at: Front,
    name: &Word,
    actual: Actual<'a>,
    index: &NameIndex,
    ports: &[OpenPort<'a>],
    works: &mut Vec<Work<'a>>,
) -> Result<(), AllocError>
    requires sound { PortsAreSound ports.now }
    requires indexed { Indexes index.now (map port_name ports.now) }
    ensures { OnOk result (map work_is works.new.items ≡ map work_is works.old.items ++ m.connected (front_is at) (m.port_named name.now.text (map port_is ports.now)) (Some (actual_is actual.entry))) }
{
    if let Some(port) = port_named(index, name.text.bytes(), ports) {
        let layout = copy(*works.allocator(), &port.layout)?;
        let task = Task::Connecting {
            way: port.way,
            wire: port.wire,
            layout,
            actual,
        };
        works.push(Work { at, task })?;
    }
    Ok(())
}

/// What is given to the parameters of an instance.
pub fn given_by<'a>(
    alloc: Global,
    at: Front,
    connections: &[Connection<'a>],
) -> Result<Vec<Given<'a>>, AllocError>
    ensures { IfOk result (λ given. map given_is given.items ≡ m.given_by (front_is at) (map connection_is connections.now)) }
{
    let mut given = Vec::new(alloc);
    'connections: for connection in connections {
        add_given(at, connection, &mut given)?;
    }
    Ok(given)
}

// What a connection gives to a parameter, if it gives something.
fn add_given<'a>(
    at: Front,
    connection: &Connection<'a>,
    given: &mut Vec<Given<'a>>,
) -> Result<(), AllocError>
    ensures { OnOk result (map given_is given.new.items ≡ map given_is given.old.items ++ m.given_by (front_is at) (connection_is connection.now ∷ [])) }
{
    match actual_of(connection) {
        Some(value) => {
            given.push(Given {
                name: connection.name,
                at,
                value,
            })?;
            Ok(())
        }
        None => Ok(()),
    }
}

/// The ports of a module's header.
pub fn ports_of(tree: &Module) -> &[Port]
    ensures { result.now ≡ m.ports_of tree.now }
{
    match &tree.ports {
        Some(ports) => ports.as_slice(),
        None => &[],
    }
}

/// The names of ports.
pub(crate) fn port_names<'a>(alloc: Global, ports: &'a [Port]) -> Result<Vec<&'a Word>, AllocError>
    ensures { IfOk result (λ words. texts_of words.items ≡ m.port_texts ports.now) }
{
    let mut words = Vec::new(alloc);
    'ports: for port in ports {
        words.push(&port.name)?;
    }
    Ok(words)
}
