//! The classes of a request's edges. A demand is a line of the request that says where ends stand: a pin, a side or a
//! row.
ghost use Rattle.std.specs.Prelude.{◌≡◌};
ghost use Rattle.std.specs.List.{list_any};
ghost use Rattle.bt_net.specs.Network as network;
ghost use Rattle.bt_demands.specs.Classes as classes;
ghost use Rattle.bt_demands.specs.inner.Tables as tables;

use bt_facts::Class;
use bt_model::{Request, names};
use bt_net::{Demand, Edge, End, Ends, Start, Target};
use bt_parts::Dir;

/// Whether the end is this input.
fn is_end_input(input: u32, end: End) -> bool
    ensures { result ≡ classes.is_end_input input end }
{
    match end {
        End::Input(number) => number == input,
        End::Output(_) => false,
    }
}

/// Whether this demand pins this input.
fn pins_input(input: u32, demand: Demand) -> bool
    ensures { result ≡ classes.pins_input input demand }
{
    match demand {
        Demand::Pin(pin) => is_end_input(input, pin.end),
        Demand::Side(_) | Demand::Row(_) => false,
    }
}

/// Whether this input is pinned.
fn is_pinned(demands: &[Demand], input: u32) -> bool
    ensures { result ≡ classes.is_pinned demands.now input }
{
    for demand in demands {
        if pins_input(input, *demand) {
            return true;
        }
    }
    false
}

/// Whether the end is one of these ends.
fn is_named(ends: Ends, end: End) -> bool
    ensures { result ≡ classes.names ends end }
{
    names(ends, end)
}

/// The side at which the end is to stand by this demand; none where the demand names no side, or not this end.
fn side_by(demand: Demand, end: End) -> Option<Dir>
    ensures { result ≡ classes.side_by demand end None }
{
    match demand {
        Demand::Pin(_) | Demand::Row(_) => None,
        Demand::Side(side) => {
            if is_named(side.ends, end) {
                Some(side.dir)
            } else {
                None
            }
        }
    }
}

/// The side at which the end is to stand by the first demand that says so; none where none does.
fn side_of(demands: &[Demand], end: End) -> Option<Dir>
    ensures { result ≡ classes.side_of demands.now end }
{
    let mut rest = demands;
    while let Some((demand, others)) = rest.split_first() {
        if let Some(dir) = side_by(*demand, end) {
            return Some(dir);
        }
        rest = others;
    }
    None
}

/// The class of an edge.
/// Any layout serves with two edges of one class exchanged, so a search needn't tell them apart: edges of one class
/// come from one splitter, or go from inputs of which the request says the same into one.
pub fn class_of(demands: &[Demand], edge: Edge) -> Class
    ensures { result ≡ classes.class_of demands.now edge }
{
    match (edge.start, edge.target) {
        (Start::Split(splitter), _) => Class::Split(splitter as usize),
        (Start::Input(input), Target::Output(_)) => Class::Input(input as usize),
        (Start::Input(input), Target::Split(splitter)) => {
            if is_pinned(demands, input) {
                Class::Input(input as usize)
            } else {
                Class::Shared(splitter as usize, side_of(demands, End::Input(input)))
            }
        }
    }
}

/// Whether the two directions are one.
fn same_dir(one: Dir, other: Dir) -> bool
    ensures { result ≡ classes.same_dir one other }
{
    match (one, other) {
        (Dir::North, Dir::North)
        | (Dir::East, Dir::East)
        | (Dir::South, Dir::South)
        | (Dir::West, Dir::West) => true,
        _ => false,
    }
}

/// Whether both are the same side, or both none.
fn same_way(one: Option<Dir>, other: Option<Dir>) -> bool
    ensures { result ≡ classes.same_way one other }
{
    match (one, other) {
        (None, None) => true,
        (Some(one), Some(other)) => same_dir(one, other),
        _ => false,
    }
}

/// Whether the two classes are one.
pub fn same_class(one: Class, other: Class) -> bool
    ensures { result ≡ classes.same_class one other }
{
    match (one, other) {
        (Class::Split(s), Class::Split(t)) => s == t,
        (Class::Shared(s, v), Class::Shared(t, w)) => s == t && same_way(v, w),
        (Class::Input(i), Class::Input(j)) => i == j,
        _ => false,
    }
}

/// Whether the edge is of this class.
fn is_of(demands: &[Demand], class: Class, edge: Edge) -> bool
    ensures { result ≡ classes.is_of demands.now class edge }
{
    same_class(class, class_of(demands, edge))
}

/// Whether the edge ends at an output.
fn leads_out(edge: Edge) -> bool
    ensures { result ≡ classes.leads_out edge }
{
    match edge.target {
        Target::Split(_) => false,
        Target::Output(_) => true,
    }
}

/// Whether the edge leaves the splitter.
pub fn leaves(splitter: usize, edge: Edge) -> bool
    ensures { result ≡ network.leaves splitter edge }
{
    match edge.start {
        Start::Split(from) => from as usize == splitter,
        Start::Input(_) => false,
    }
}

/// Whether the edge goes to the splitter.
pub fn enters(splitter: usize, edge: Edge) -> bool
    ensures { result ≡ network.enters splitter edge }
{
    match edge.target {
        Target::Split(to) => to as usize == splitter,
        Target::Output(_) => false,
    }
}

/// Whether the edge starts at the input.
pub fn is_input(input: usize, edge: Edge) -> bool
    ensures { result ≡ network.is_input input edge }
{
    match edge.start {
        Start::Input(from) => from as usize == input,
        Start::Split(_) => false,
    }
}

/// Whether the edge ends at the output.
pub fn is_output(output: usize, edge: Edge) -> bool
    ensures { result ≡ network.is_output output edge }
{
    match edge.target {
        Target::Output(to) => to as usize == output,
        Target::Split(_) => false,
    }
}

/// Whether some edge is of this class.
pub fn occurs(edges: &[Edge], demands: &[Demand], class: Class) -> bool
    ensures { result ≡ list_any (classes.is_of demands.now class) edges.now }
{
    for edge in edges {
        if is_of(demands, class, *edge) {
            return true;
        }
    }
    false
}

/// Whether the edge is of this class and goes to the splitter.
fn goes_along(demands: &[Demand], class: Class, splitter: usize, edge: Edge) -> bool
    ensures { result ≡ tables.goes_along demands.now class splitter edge }
{
    is_of(demands, class, edge) && enters(splitter, edge)
}

/// Whether some of the edges is of this class and goes to the splitter.
fn some_goes_along(edges: &[Edge], demands: &[Demand], class: Class, splitter: usize) -> bool
    ensures { result ≡ list_any (tables.goes_along demands.now class splitter) edges.now }
{
    for edge in edges {
        if goes_along(demands, class, splitter, *edge) {
            return true;
        }
    }
    false
}

/// Whether some edge of this class goes to the splitter.
pub fn goes_to(request: &Request, class: Class, splitter: usize) -> bool
    ensures { result ≡ classes.goes_to request.now class splitter }
{
    some_goes_along(request.net().edges(), request.demands(), class, splitter)
}

/// Whether the splitter is `from`, or some edge goes from that one into it.
pub fn goes_on(request: &Request, from: usize, splitter: usize) -> bool
    ensures { result ≡ tables.goes_on request.now from splitter }
{
    splitter == from || goes_to(request, Class::Split(from), splitter)
}

/// Whether the edge is of this class and ends at an output.
fn goes_out(demands: &[Demand], class: Class, edge: Edge) -> bool
    ensures { result ≡ tables.goes_out demands.now class edge }
{
    is_of(demands, class, edge) && leads_out(edge)
}

/// Whether some edge of this class ends at an output.
pub fn ends_out(edges: &[Edge], demands: &[Demand], class: Class) -> bool
    ensures { result ≡ list_any (tables.goes_out demands.now class) edges.now }
{
    for edge in edges {
        if goes_out(demands, class, *edge) {
            return true;
        }
    }
    false
}

/// Whether the edge is that of the input and ends at an output.
fn passes(input: usize, edge: Edge) -> bool
    ensures { result ≡ tables.passes input edge }
{
    is_input(input, edge) && leads_out(edge)
}

/// Whether the edge of this input ends at an output.
pub fn is_through(edges: &[Edge], input: usize) -> bool
    ensures { result ≡ list_any (tables.passes input) edges.now }
{
    for edge in edges {
        if passes(input, *edge) {
            return true;
        }
    }
    false
}
