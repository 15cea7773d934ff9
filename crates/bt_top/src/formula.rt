//! `formula`: the formula that `decide` or `layout` refutes.
ghost use Rattle.std.specs.Prelude.{◌≡◌, alloc_error, Ok};
ghost use Rattle.bt_text.specs.Answers.{UnlessMemory};
ghost use Rattle.bt_model.specs.Requests.{IsGrid};
ghost use Rattle.bt_top.specs.Formulas.{IsFlowFormulaFrom, IsPlaceFormulaFrom};
ghost use Rattle.bt_print.specs.Replies.{UnlessLarge};
ghost use Rattle.bt_top.specs.Formulas.{flow_columns, flow_formula_told, place_formula_told};

use bt_designs::{DesignFault, Refusal, read_alone, read_lone_request};
use bt_flow::Property;
use bt_flow_formula::encode;
use bt_model::Request;
use bt_net::Net;
use bt_parts::{Rect, Tier};
use bt_place::{Numbers, encode_place, has_formula};
use bt_print::{Answer, Columns, refused};
use std::alloc::{AllocError, Global};

/// The answer of `formula` to the bytes of its input, about a property.
pub fn flow_formula(alloc: Global, property: Property, bytes: &[u8]) -> Result<Answer, AllocError>
    ensures { UnlessMemory alloc_error (IsFlowFormulaFrom property bytes.now) result }
{
    match read_alone(alloc, bytes) {
        Ok(net) => flow_formula_of(alloc, property, &net),
        Err(fault) => refused(fault),
    }
}

/// The answer of `formula` to the bytes of its input, about layouts.
pub fn place_formula(
    alloc: Global,
    rect: Rect,
    tier: Option<Tier>,
    bytes: &[u8],
) -> Result<Answer, AllocError>
    requires { IsGrid rect }
    ensures { UnlessMemory alloc_error (IsPlaceFormulaFrom rect tier bytes.now) result }
{
    match read_lone_request(alloc, rect, tier, bytes) {
        Ok(request) => place_formula_unless_large(alloc, &request),
        Err(fault) => refused(fault),
    }
}

/// The answer of `formula` to a network.
fn flow_formula_of(alloc: Global, property: Property, net: &Net) -> Result<Answer, AllocError>
    ensures { UnlessMemory alloc_error (λ reply. reply ≡ Ok (flow_formula_told property net.now)) result }
{
    match encode(alloc, net, property) {
        Ok(formula) => Ok(Answer::FlowFormula(flow_columns(net), formula)),
        Err(_) => Err(AllocError),
    }
}

/// The columns of a network's flow formulas.
fn flow_columns(net: &Net) -> Columns
    ensures { result ≡ flow_columns net.now }
{
    Columns {
        edges: net.edges().len(),
        inputs: net.inputs() as usize,
        outputs: net.outputs() as usize,
    }
}

/// The answer of `formula` to a request; a refusal where it has no formula.
fn place_formula_unless_large(alloc: Global, request: &Request) -> Result<Answer, AllocError>
    ensures { UnlessMemory alloc_error
        (UnlessLarge (λ r reply. reply ≡ Ok (place_formula_told r)) request.now) result }
{
    let has = has_formula(alloc, request)?;
    if has {
        place_formula_of(alloc, request)
    } else {
        refused(DesignFault::Refused(Refusal::TooLarge))
    }
}

/// The answer of `formula` to a request that has a formula.
fn place_formula_of(alloc: Global, request: &Request) -> Result<Answer, AllocError>
    ensures { UnlessMemory alloc_error (λ reply. reply ≡ Ok (place_formula_told request.now)) result }
{
    let Ok(numbers) = Numbers::new(alloc, request) else {
        return Err(AllocError);
    };
    match encode_place(alloc, request) {
        Ok(formula) => Ok(Answer::PlaceFormula(numbers.starts(), formula)),
        Err(_) => Err(AllocError),
    }
}
