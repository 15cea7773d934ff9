//! A request asked again, of another grid.
ghost use Rattle.std.specs.Prelude.{◌≡◌, IfOk};
ghost use Rattle.bt_net.specs.NetText.{alone};
ghost use Rattle.bt_net.specs.Network.{IsNetwork};
ghost use Rattle.bt_model.specs.Requests.{IsRequest};
ghost use Rattle.bt_grids.specs.Asked.{NamesNoCells, request_on};

use bt_model::Request;
use bt_net::Net;
use bt_parts::Rect;
use std::alloc::{AllocError, Global};

/// The same request on this grid. It names no cells, by pins or by blocks, so it may be asked of any.
pub fn request_on(alloc: Global, request: &Request, grid: Rect) -> Result<Request, AllocError>
    requires request { IsRequest (request_on request.now grid) }
    requires cells { NamesNoCells request.now }
    ensures { IfOk result (λ again. again ≡ request_on request.now grid) }
{
    let net = copy_of(alloc, request.net())?;
    let demands = Vec::from_slice(alloc, request.demands())?;
    let blocks = Vec::new(alloc);
    match Request::new(net, grid, request.tier(), demands, blocks) {
        Ok(again) => Ok(again),
        Err(_) => Err(AllocError),
    }
}

/// The same network again, without the edges that its splitters prefer.
fn bare_copy_of(alloc: Global, net: &Net) -> Result<Net, AllocError>
    ensures { IfOk result (λ copy. copy ≡ alone net.now) }
{
    let edges = Vec::from_slice(alloc, net.edges())?;
    match Net::new(net.inputs(), net.outputs(), net.splitters(), edges) {
        Ok(copy) => Ok(copy),
        Err(_) => Err(AllocError),
    }
}

/// The out edge that each splitter prefers, where it prefers one.
fn gives_of(alloc: Global, net: &Net) -> Result<Vec<Option<usize>>, AllocError>
    requires { IsNetwork net.now }
    ensures { IfOk result (λ gives. gives.items ≡ net.now.gives) }
{
    let mut gives = Vec::new(alloc);
    for splitter in 0..net.splitters() {
        gives.push(net.give(splitter as usize))?;
    }
    Ok(gives)
}

/// The in edge that each splitter prefers, where it prefers one.
fn takes_of(alloc: Global, net: &Net) -> Result<Vec<Option<usize>>, AllocError>
    requires { IsNetwork net.now }
    ensures { IfOk result (λ takes. takes.items ≡ net.now.takes) }
{
    let mut takes = Vec::new(alloc);
    for splitter in 0..net.splitters() {
        takes.push(net.take(splitter as usize))?;
    }
    Ok(takes)
}

/// Whether each splitter may prefer any in edge.
fn merges_of(alloc: Global, net: &Net) -> Result<Vec<bool>, AllocError>
    requires { IsNetwork net.now }
    ensures { IfOk result (λ merges. merges.items ≡ net.now.merges) }
{
    let mut merges = Vec::new(alloc);
    for splitter in 0..net.splitters() {
        merges.push(net.merges_any(splitter as usize))?;
    }
    Ok(merges)
}

/// The same network again.
fn copy_of(alloc: Global, net: &Net) -> Result<Net, AllocError>
    requires { IsNetwork net.now }
    ensures { IfOk result (λ copy. copy ≡ net.now) }
{
    let gives = gives_of(alloc, net)?;
    let takes = takes_of(alloc, net)?;
    let merges = merges_of(alloc, net)?;
    let bare = bare_copy_of(alloc, net)?;
    Ok(bare.preferring(gives, takes).merging(merges))
}
