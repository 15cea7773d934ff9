//! Layouts that half a turn of their rectangle maps onto themselves: half of the cells tell what the others hold, so a
//! search of the whole formula finds in a small rectangle what no windows come to.
use crate::around::{cell_of, count, mate};
use crate::contents::contents;
use crate::variables::Variables;
use bt_facts::{Class, Content, Fact, Half, Shape};
use bt_model::Request;
use bt_parts::{Cell, DIRS, Dir, Rect};
use hint_numbering::Exchange;
use std::alloc::{AllocError, Global};

/// What is turned.
#[derive(Clone, Copy)]
struct Given {
    rect: Rect,
    /// The greatest distance of pairs.
    most: usize,
}

/// What a number, from 0 on, is of so many where they are counted from the other end.
fn from_end(many: u32, number: i32) -> i32 {
    i32::try_from(many)
        .unwrap_or(0)
        .wrapping_sub(1)
        .wrapping_sub(number)
}

/// What half a turn makes of a shape: of a half of a splitter the other half.
fn turned_shape(shape: Shape) -> Shape {
    match shape {
        Shape::Half(Half::Lesser) => Shape::Half(Half::Greater),
        Shape::Half(Half::Greater) => Shape::Half(Half::Lesser),
        other => other,
    }
}

/// What a cell holds after half a turn.
fn turned_content(content: Content) -> Content {
    match content {
        Content::Empty => Content::Empty,
        Content::Turned(shape, dir) => Content::Turned(turned_shape(shape), dir.opposite()),
    }
}

impl Given {
    /// Where a cell comes by half a turn.
    fn turned_cell(self, cell: Cell) -> Cell {
        Cell {
            x: from_end(self.rect.width, cell.x),
            y: from_end(self.rect.height, cell.y),
        }
    }

    /// Lets what leaves a cell in a direction, on the ground and below it, do so after half a turn.
    fn share_ways(self, variables: &mut Variables, cell: Cell, dir: Dir) {
        let (turned, back) = (self.turned_cell(cell), dir.opposite());
        variables.share(Fact::Goes(cell, dir), Fact::Goes(turned, back));
        variables.share(Fact::Tunnel(cell, dir), Fact::Tunnel(turned, back));
        for far in 1..=self.most {
            let pair = Fact::Pair(cell, dir, far);
            variables.share(pair, Fact::Pair(turned, back, far));
        }
    }

    /// Lets a cell hold what another one does after half a turn.
    fn share_cell(self, variables: &mut Variables, contents: &[Content], cell: Cell) {
        let turned = self.turned_cell(cell);
        for content in contents {
            let other = Fact::Kind(turned, turned_content(*content));
            variables.share(Fact::Kind(cell, *content), other);
        }
        variables.share(Fact::Begins(cell), Fact::Begins(turned));
        variables.share(Fact::HalfOn(cell), Fact::HalfOn(turned));
        variables.share(Fact::BeltOn(cell), Fact::BeltOn(turned));
        for dir in &DIRS {
            self.share_ways(variables, cell, *dir);
        }
    }

    /// Lets a splitter stand, and what comes from it pass, where another one does after half a turn.
    fn share_splitter(self, variables: &mut Variables, cell: Cell, one: usize, other: usize) {
        let turned = self.turned_cell(cell);
        let (class, exchanged) = (Class::Split(one), Class::Split(other));
        variables.share(Fact::Carries(cell, class), Fact::Carries(turned, exchanged));
        let (class, exchanged) = (Class::Shared(one, None), Class::Shared(other, None));
        variables.share(Fact::Carries(cell, class), Fact::Carries(turned, exchanged));
        for dir in &DIRS {
            let lesser = self.turned_cell(mate(cell, *dir));
            let stands = Fact::At(other, lesser, dir.opposite());
            variables.share(Fact::At(one, cell, *dir), stands);
        }
    }

    /// Lets each splitter stand where the one with which it changes places does after half a turn.
    fn share_splitters(
        self,
        variables: &mut Variables,
        count: usize,
        exchange: &Exchange,
        cell: Cell,
    ) {
        for one in 0..count {
            if let Some(other) = exchange.other(one) {
                self.share_splitter(variables, cell, one, other);
            }
        }
    }
}

/// Lets splitters be turned as those with which they change places are after half a turn.
fn share_points(variables: &mut Variables, count: usize, exchange: &Exchange) {
    for one in 0..count {
        if let Some(other) = exchange.other(one) {
            for dir in &DIRS {
                let turned = Fact::Points(other, dir.opposite());
                variables.share(Fact::Points(one, *dir), turned);
            }
        }
    }
}

/// Lets facts share variables which half a turn maps onto each other, where splitters change places.
pub fn share_turned(
    alloc: Global,
    variables: &mut Variables,
    request: &Request,
    exchange: &Exchange,
) -> Result<(), AllocError> {
    let rect = request.rect();
    let most = (request.tier().reach() as usize).saturating_add(1);
    let given = Given { rect, most };
    let contents = contents(alloc)?;
    let splitters = request.net().splitters() as usize;
    share_points(variables, splitters, exchange);
    for place in 0..count(rect) {
        let cell = cell_of(rect, place);
        given.share_cell(variables, &contents, cell);
        given.share_splitters(variables, splitters, exchange, cell);
    }
    Ok(())
}
