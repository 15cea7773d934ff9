//! Requests for a layout as values: what was checked once, each call above may rely on.
ghost use Rattle.std.specs.Prelude.{◌≡◌};
ghost use Rattle.bt_text.specs.Answers.{AnswersAlways};

use crate::fault::RequestFault;
use crate::refusing::{other_cap, refused_block, refused_demand};
use bt_net::{Block, Demand, Net};
use bt_parts::{Rect, Tier};
use std::marker::Model;

/// The most cells of a request's rectangle, each way.
pub const MOST_ACROSS: u32 = 160;

/// The most edges of the network that a request asks for.
pub const MOST_EDGES: usize = 1024;

/// The most splitters of the network that a request asks for.
pub const MOST_SPLITTERS: u32 = 512;

/// A formula is written of a request whose rectangle has at most so many cells; of a greater one only where splitters
/// and ends have no room in it.
pub const MOST_CELLS: u32 = 1024;

/// The network of a request of which a formula is so written has at most so many edges, and at most so many splitters.
pub const MOST_ENCODED: usize = 128;

/// What a layout is asked for: a network, the rectangle with the corner (0, 0) in which its parts are to
/// lie, their tier, the cells on which ends of the network are to stand, the sides at which they are or that they
/// stand in a row, and the cells on which no part is to stand.
///
/// The network has at most `MOST_EDGES` edges and `MOST_SPLITTERS` splitters, and every cap is 1. The rectangle has from
/// 1 to `MOST_ACROSS` cells each way, and pins and blocks name cells of it. No two pins or sides name one end, no two
/// rows ends of one kind, no two blocks one cell, and no block names a pinned cell.
#[derive(Drop)]
pub struct Request {
    net: Net,
    rect: Rect,
    tier: Tier,
    demands: Vec<Demand>,
    blocks: Vec<Block>,
}

impl Model for Request {
    ghost use Rattle.bt_model.specs.Requests.{LayoutRequest, IsRequest, request_of};

    ghost Value = { LayoutRequest };

    ghost view = { λ r. request_of r.net r.rect r.tier r.demands.items r.blocks.items };

    ghost invariant = { λ r. IsRequest (request_of r.net r.rect r.tier r.demands.items r.blocks.items) };
}

impl Request {
    ghost use Rattle.bt_model.specs.Requests.{IsGrid, IsRequest, request_of};
    ghost use Rattle.bt_model.specs.RequestFaults.{IsMade};

    /// The request for these, or the first cause in the order of `RequestFault` why there is none. It
    /// takes no memory.
    pub fn new(
        net: Net,
        rect: Rect,
        tier: Tier,
        demands: Vec<Demand>,
        blocks: Vec<Block>,
    ) -> Result<Request, RequestFault>
        requires { IsGrid rect }
        ensures { AnswersAlways
            (IsMade (request_of net rect tier demands.items blocks.items)) result }
    {
        if net.edges().len() > MOST_EDGES || net.splitters() > MOST_SPLITTERS {
            return Err(RequestFault::TooLarge);
        }
        if let Some(edge) = other_cap(&net) {
            return Err(RequestFault::Cap(edge));
        }
        if let Some(line) = refused_demand(&net, rect, &demands) {
            return Err(RequestFault::Pin(line));
        }
        if let Some(line) = refused_block(rect, &demands, &blocks) {
            return Err(RequestFault::Block(line));
        }
        Ok(Request {
            net,
            rect,
            tier,
            demands,
            blocks,
        })
    }

    /// The network that is asked for.
    pub fn net(&self) -> &Net
        ensures net { result.now ≡ self.now.net }
        ensures request { IsRequest self.now }
    {
        &self.net
    }

    /// The rectangle in which the parts are to lie.
    pub fn rect(&self) -> Rect
        ensures rect { result ≡ self.now.rect }
        ensures request { IsRequest self.now }
    {
        self.rect
    }

    /// The tier that the parts are to have.
    pub fn tier(&self) -> Tier
        ensures { result ≡ self.now.tier }
    {
        self.tier
    }

    /// Where ends are to stand.
    pub fn demands(&self) -> &[Demand]
        ensures { result.now ≡ self.now.demands }
    {
        &self.demands
    }

    /// The cells on which no part is to stand.
    pub fn blocks(&self) -> &[Block]
        ensures { result.now ≡ self.now.blocks }
    {
        &self.blocks
    }
}
