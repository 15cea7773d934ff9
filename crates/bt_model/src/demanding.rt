//! What the lines of pins and sides name.
ghost use Rattle.std.specs.Prelude.{◌≡◌, ◌↔◌, IsTrue};
ghost use Rattle.bt_model.specs.Requests as requests;
ghost use Rattle.bt_model.specs.Requests.{Names, ShareEnd, NameOneEnd};

use bt_net::{Demand, End, EndKind, Ends};

/// The ends of which a line says where they are to stand.
pub fn ends_of(demand: Demand) -> Ends
    ensures { result ≡ requests.ends_of demand }
{
    match demand {
        Demand::Pin(pin) => Ends::One(pin.end),
        Demand::Side(side) => side.ends,
        Demand::Row(row) => all_of(row.kind),
    }
}

/// The ends of this kind.
fn all_of(kind: EndKind) -> Ends
    ensures { result ≡ requests.all_of kind }
{
    match kind {
        EndKind::Inputs => Ends::Inputs,
        EndKind::Outputs => Ends::Outputs,
    }
}

/// Whether the line says that ends stand in a row.
fn is_row(demand: Demand) -> bool
    ensures { result ≡ requests.is_row demand }
{
    match demand {
        Demand::Pin(_) | Demand::Side(_) => false,
        Demand::Row(_) => true,
    }
}

/// Whether some end is named by both lines, of which both or neither say that ends stand in a row.
pub(crate) fn name_one_end(one: Demand, other: Demand) -> bool
    ensures { IsTrue result ↔ NameOneEnd one other }
{
    is_row(one) == is_row(other) && share_end(ends_of(one), ends_of(other))
}

/// The number of a line that says where ends are to stand.
pub(crate) fn line_of(demand: Demand) -> usize
    ensures { result ≡ requests.line_of demand }
{
    match demand {
        Demand::Pin(pin) => pin.line,
        Demand::Side(side) => side.line,
        Demand::Row(row) => row.line,
    }
}

/// Whether the two are the same end.
fn is_same_end(one: End, other: End) -> bool
    ensures { IsTrue result ↔ (one ≡ other) }
{
    one == other
}

/// Whether the end is one of these ends.
pub fn names(ends: Ends, end: End) -> bool
    ensures { IsTrue result ↔ Names ends end }
{
    match (ends, end) {
        (Ends::One(one), _) => is_same_end(end, one),
        (Ends::Inputs, End::Input(_)) | (Ends::Outputs, End::Output(_)) => true,
        _ => false,
    }
}

/// Whether some input is one of these ends.
fn names_inputs(ends: Ends) -> bool
    ensures { IsTrue result ↔ ShareEnd Ends.Inputs ends }
{
    match ends {
        Ends::One(end) => names(Ends::Inputs, end),
        Ends::Inputs => true,
        Ends::Outputs => false,
    }
}

/// Whether some output is one of these ends.
fn names_outputs(ends: Ends) -> bool
    ensures { IsTrue result ↔ ShareEnd Ends.Outputs ends }
{
    match ends {
        Ends::One(end) => names(Ends::Outputs, end),
        Ends::Inputs => false,
        Ends::Outputs => true,
    }
}

/// Whether some end is one of both.
fn share_end(one: Ends, other: Ends) -> bool
    ensures { IsTrue result ↔ ShareEnd one other }
{
    match one {
        Ends::One(end) => names(other, end),
        Ends::Inputs => names_inputs(other),
        Ends::Outputs => names_outputs(other),
    }
}
