//! What the rules of a request need to know of its network, worked out once.
ghost use Rattle.std.specs.Prelude.{◌≡◌, ◌++◌, ◌∷◌, [], map, flat_map, not, filter, IfOk, OnOk, if◌then◌else◌};
ghost use Rattle.std.specs.List.{AllByRecursion, range_with_len};
ghost use Rattle.bt_net.specs.Network as network;
ghost use Rattle.bt_model.specs.Requests.{IsRequest};
ghost use Rattle.bt_demands.specs.Classes as classing;
ghost use Rattle.bt_demands.specs.Plans.{IsWay, IsGate, IsPlan};
ghost use Rattle.bt_facts.specs.declared.fact.Class.TheVariants as class;
ghost use Rattle.bt_demands.specs.inner.Tables as tables;

use crate::classes::{class_of, ends_out, enters, goes_on, goes_to, leaves, occurs};
use bt_facts::{Class, WAYS};
use bt_model::Request;
use bt_net::{Demand, Edge};
use std::alloc::{AllocError, Global};

/// A class, and the splitters into which edges of it go.
#[derive(Drop)]
pub struct Way {
    pub class: Class,
    pub goals: Vec<usize>,
}

/// A splitter, with what comes to it and what goes from it.
#[derive(Drop)]
pub struct Gate {
    pub splitter: usize,
    /// The classes of which edges go into it.
    pub sources: Vec<Class>,
    /// Itself, and the splitters into which its edges go.
    pub onward: Vec<usize>,
    /// The classes of the edges into it, in their order.
    pub into: Vec<Class>,
    /// The edges that leave it.
    pub leaving: Vec<Edge>,
}

/// What the rules of a request need to know of its network.
#[derive(Drop)]
pub struct Plan {
    pub classes: Vec<Class>,
    /// The classes of edges from inputs.
    pub inputs: Vec<Class>,
    /// The classes of which no edge ends at an output.
    pub kept: Vec<Class>,
    /// The way of each class.
    pub ways: Vec<Way>,
    /// The gate of each splitter.
    pub gates: Vec<Gate>,
}

/// Adds the class, where some edge is of it.
fn push_occurring(found: &mut Vec<Class>, request: &Request, class: Class) -> Result<(), AllocError>
    ensures { OnOk result (found.new.items ≡ found.old.items
        ++ (if classing.occurs request.now class then class ∷ [] else [])) }
{
    if occurs(request.net().edges(), request.demands(), class) {
        found.push(class)?;
    }
    Ok(())
}

/// Adds the classes that occur of the edges from inputs into this splitter, but for those of single inputs.
fn push_shared_into(
    found: &mut Vec<Class>,
    request: &Request,
    splitter: usize,
) -> Result<(), AllocError>
    ensures { OnOk result (found.new.items ≡ found.old.items
        ++ filter (classing.occurs request.now) (classing.shared_into splitter)) }
{
    for way in WAYS {
        push_occurring(found, request, Class::Shared(splitter, way))?;
    }
    Ok(())
}

/// Adds the classes that occur of the edges from inputs into each splitter, but for those of single inputs.
fn push_shared(found: &mut Vec<Class>, request: &Request) -> Result<(), AllocError>
    ensures { OnOk result (found.new.items ≡ found.old.items ++ filter (classing.occurs request.now)
        (flat_map classing.shared_into (classing.splitters_of request.now))) }
{
    let splitters = request.net().splitters() as usize;
    for splitter in 0..splitters {
        push_shared_into(found, request, splitter)?;
    }
    Ok(())
}

/// Adds the classes that occur of the edges of single inputs.
fn push_single(found: &mut Vec<Class>, request: &Request) -> Result<(), AllocError>
    ensures { OnOk result (found.new.items ≡ found.old.items
        ++ filter (classing.occurs request.now) (map class.Input (range_with_len 0 request.now.net.inputs))) }
{
    let inputs = request.net().inputs() as usize;
    for input in 0..inputs {
        push_occurring(found, request, Class::Input(input))?;
    }
    Ok(())
}

/// The classes of edges from inputs.
fn input_classes(alloc: Global, request: &Request) -> Result<Vec<Class>, AllocError>
    ensures { IfOk result (λ found. found.items ≡ classing.input_classes request.now) }
{
    let mut found = Vec::new(alloc);
    push_shared(&mut found, request)?;
    push_single(&mut found, request)?;
    Ok(found)
}

/// The class of the edges that leave each splitter.
fn splitter_classes(alloc: Global, request: &Request) -> Result<Vec<Class>, AllocError>
    ensures { IfOk result (λ found. found.items ≡ map class.Split (classing.splitters_of request.now)) }
{
    (0..request.net().splitters() as usize)
        .map(|splitter| Class::Split(splitter))
        .collect(alloc)
}

/// All classes of a request: those of the splitters, and behind them `inputs`, those of edges from inputs.
fn all_classes(alloc: Global, request: &Request, inputs: &[Class]) -> Result<Vec<Class>, AllocError>
    requires { inputs.now ≡ classing.input_classes request.now }
    ensures { IfOk result (λ found. found.items ≡ classing.classes_of request.now) }
{
    let mut found = splitter_classes(alloc, request)?;
    found.extend_from_slice(inputs)?;
    Ok(found)
}

/// Adds the class, where no edge of it ends at an output.
fn push_kept(found: &mut Vec<Class>, request: &Request, class: Class) -> Result<(), AllocError>
    ensures { OnOk result (found.new.items ≡ found.old.items
        ++ (if not (classing.ends_out request.now class) then class ∷ [] else [])) }
{
    if !ends_out(request.net().edges(), request.demands(), class) {
        found.push(class)?;
    }
    Ok(())
}

/// Those of the classes of which no edge ends at an output.
fn kept_of(alloc: Global, request: &Request, classes: &[Class]) -> Result<Vec<Class>, AllocError>
    ensures { IfOk result (λ found. found.items
        ≡ filter (λ k. not (classing.ends_out request.now k)) classes.now) }
{
    let mut found = Vec::new(alloc);
    for class in classes {
        push_kept(&mut found, request, *class)?;
    }
    Ok(found)
}

/// Adds the splitter, where some edge of the class goes into it.
fn push_goal(
    found: &mut Vec<usize>,
    request: &Request,
    class: Class,
    splitter: usize,
) -> Result<(), AllocError>
    ensures { OnOk result (found.new.items ≡ found.old.items
        ++ (if classing.goes_to request.now class splitter then splitter ∷ [] else [])) }
{
    if goes_to(request, class, splitter) {
        found.push(splitter)?;
    }
    Ok(())
}

/// The splitters into which edges of this class go.
fn goals(alloc: Global, request: &Request, class: Class) -> Result<Vec<usize>, AllocError>
    ensures { IfOk result (λ found. found.items ≡ classing.goals request.now class) }
{
    let splitters = request.net().splitters() as usize;
    let mut found = Vec::new(alloc);
    for splitter in 0..splitters {
        push_goal(&mut found, request, class, splitter)?;
    }
    Ok(found)
}

/// Adds the class, where some edge of it goes into the splitter.
fn push_source(
    found: &mut Vec<Class>,
    request: &Request,
    splitter: usize,
    class: Class,
) -> Result<(), AllocError>
    ensures { OnOk result (found.new.items ≡ found.old.items
        ++ (if classing.goes_to request.now class splitter then class ∷ [] else [])) }
{
    if goes_to(request, class, splitter) {
        found.push(class)?;
    }
    Ok(())
}

/// Those of the classes of which edges go into this splitter.
fn sources(
    alloc: Global,
    request: &Request,
    classes: &[Class],
    splitter: usize,
) -> Result<Vec<Class>, AllocError>
    requires { classes.now ≡ classing.classes_of request.now }
    ensures { IfOk result (λ found. found.items ≡ classing.sources request.now splitter) }
{
    let mut found = Vec::new(alloc);
    for class in classes {
        push_source(&mut found, request, splitter, *class)?;
    }
    Ok(found)
}

/// Adds the splitter, where it is `from` or some edge goes from that one into it.
fn push_onward(
    found: &mut Vec<usize>,
    request: &Request,
    from: usize,
    splitter: usize,
) -> Result<(), AllocError>
    ensures { OnOk result (found.new.items ≡ found.old.items
        ++ (if tables.goes_on request.now from splitter then splitter ∷ [] else [])) }
{
    if goes_on(request, from, splitter) {
        found.push(splitter)?;
    }
    Ok(())
}

/// The splitter itself, and those into which its edges go.
fn onward(alloc: Global, request: &Request, from: usize) -> Result<Vec<usize>, AllocError>
    ensures { IfOk result (λ found. found.items ≡ classing.onward request.now from) }
{
    let splitters = request.net().splitters() as usize;
    let mut found = Vec::new(alloc);
    for splitter in 0..splitters {
        push_onward(&mut found, request, from, splitter)?;
    }
    Ok(found)
}

/// Adds the class of the edge, where it goes into the splitter.
fn push_into(
    found: &mut Vec<Class>,
    demands: &[Demand],
    splitter: usize,
    edge: Edge,
) -> Result<(), AllocError>
    ensures { OnOk result (found.new.items ≡ found.old.items
        ++ (if network.enters splitter edge then classing.class_of demands.now edge ∷ [] else [])) }
{
    if enters(splitter, edge) {
        found.push(class_of(demands, edge))?;
    }
    Ok(())
}

/// The classes of the edges into this splitter, one for each edge in their order.
fn classes_into(
    alloc: Global,
    edges: &[Edge],
    demands: &[Demand],
    splitter: usize,
) -> Result<Vec<Class>, AllocError>
    ensures { IfOk result (λ found. found.items
        ≡ map (classing.class_of demands.now) (filter (network.enters splitter) edges.now)) }
{
    let mut found = Vec::new(alloc);
    for edge in edges {
        push_into(&mut found, demands, splitter, *edge)?;
    }
    Ok(found)
}

/// Adds the edge, where it leaves the splitter.
fn push_leaving(found: &mut Vec<Edge>, splitter: usize, edge: Edge) -> Result<(), AllocError>
    ensures { OnOk result (found.new.items ≡ found.old.items
        ++ (if network.leaves splitter edge then edge ∷ [] else [])) }
{
    if leaves(splitter, edge) {
        found.push(edge)?;
    }
    Ok(())
}

/// The edges that leave this splitter.
fn edges_from(alloc: Global, edges: &[Edge], splitter: usize) -> Result<Vec<Edge>, AllocError>
    ensures { IfOk result (λ found. found.items ≡ filter (network.leaves splitter) edges.now) }
{
    let mut found = Vec::new(alloc);
    for edge in edges {
        push_leaving(&mut found, splitter, *edge)?;
    }
    Ok(found)
}

/// The way of a class: the class with the splitters into which edges of it go.
fn way_of(alloc: Global, request: &Request, class: Class) -> Result<Way, AllocError>
    ensures is { IfOk result (λ way. IsWay request.now way) }
    ensures class { IfOk result (λ way. way.class ≡ class) }
{
    let goals = goals(alloc, request, class)?;
    Ok(Way { class, goals })
}

/// The way of each class.
fn ways_of(alloc: Global, request: &Request, classes: &[Class]) -> Result<Vec<Way>, AllocError>
    ensures of { IfOk result (λ ways. map (λ w. w.class) ways.items ≡ classes.now) }
    ensures ways { IfOk result (λ ways. AllByRecursion (IsWay request.now) ways.items) }
{
    let mut ways = Vec::new(alloc);
    for class in classes {
        let way = way_of(alloc, request, *class)?;
        ways.push(way)?;
    }
    Ok(ways)
}

/// The gate of a splitter: it, with what comes to it and what goes from it. `classes` are all of the request's.
fn gate_of(
    alloc: Global,
    request: &Request,
    classes: &[Class],
    splitter: usize,
) -> Result<Gate, AllocError>
    requires { classes.now ≡ classing.classes_of request.now }
    ensures is { IfOk result (λ gate. IsGate request.now gate) }
    ensures splitter { IfOk result (λ gate. gate.splitter ≡ splitter) }
{
    let sources = sources(alloc, request, classes, splitter)?;
    let onward = onward(alloc, request, splitter)?;
    let edges = request.net().edges();
    let into = classes_into(alloc, edges, request.demands(), splitter)?;
    let leaving = edges_from(alloc, edges, splitter)?;
    Ok(Gate {
        splitter,
        sources,
        onward,
        into,
        leaving,
    })
}

/// The gate of each splitter.
fn gates_of(alloc: Global, request: &Request, classes: &[Class]) -> Result<Vec<Gate>, AllocError>
    requires { classes.now ≡ classing.classes_of request.now }
    ensures of { IfOk result (λ gates. map (λ g. g.splitter) gates.items
        ≡ classing.splitters_of request.now) }
    ensures gates { IfOk result (λ gates. AllByRecursion (IsGate request.now) gates.items) }
    ensures request { IsRequest request.now }
{
    let splitters = request.net().splitters() as usize;
    let mut gates = Vec::new(alloc);
    for splitter in 0..splitters {
        let gate = gate_of(alloc, request, classes, splitter)?;
        gates.push(gate)?;
    }
    Ok(gates)
}

impl Plan {
    /// The plan of a request.
    pub fn new(alloc: Global, request: &Request) -> Result<Plan, AllocError>
        ensures { IfOk result (IsPlan request.now) }
    {
        let inputs = input_classes(alloc, request)?;
        let classes = all_classes(alloc, request, &inputs)?;
        let kept = kept_of(alloc, request, &classes)?;
        let ways = ways_of(alloc, request, &classes)?;
        let gates = gates_of(alloc, request, &classes)?;
        Ok(Plan {
            classes,
            inputs,
            kept,
            ways,
            gates,
        })
    }
}
