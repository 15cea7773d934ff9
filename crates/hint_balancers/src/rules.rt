//! Which networks are proposed to a wish: those of the table, and where it has none, those that rules make.

use crate::block::Block;
use crate::combining::{in_row, led_back, mirrored, product, with_inputs};
use crate::lessening::brought_to;
use crate::pruning::{Doubled, prune};
use crate::reading::{net_of, net_preferring_ends};
use crate::stages::{benes, butterfly};
use crate::tabled::{MOST_TABLED, push_tabled, tabled};
use crate::universal::universal;
use bt_gen::Wish;
use bt_net::Net;
use std::alloc::{AllocError, Global};

/// The numbers of lines of networks in stages.
const POWERS: [u32; 7] = [1, 2, 4, 8, 16, 32, 64];

/// The most lines of an unlimited network in stages that is made as small as may be: of one of 28 lines deciding takes
/// minutes then, and less than a second otherwise.
const MOST_LESSENED: u32 = 16;

/// What the table says of networks that divide evenly both ways and pass all that comes where nothing is blocked.
const EVEN: Wish = Wish {
    balanced: true,
    drawn_evenly: true,
    unlimited: false,
    full: true,
    fair: false,
    drawn_fairly: false,
};

/// All properties but fairness.
const ALL: Wish = Wish {
    balanced: true,
    drawn_evenly: true,
    unlimited: true,
    full: true,
    fair: false,
    drawn_fairly: false,
};

/// Networks of so many inputs and outputs, from 1 to 64 each, that are likely to have each wished property.
pub fn candidates(
    alloc: Global,
    wish: Wish,
    inputs: u32,
    outputs: u32,
) -> Result<Vec<Net>, AllocError> {
    let mut nets = Vec::new(alloc);
    if asks_little(wish) {
        push_block(&mut nets, alloc, brought_to(alloc, inputs, outputs)?)?;
    }
    if asks_fairness(wish) {
        push_tabled(&mut nets, alloc, wish, inputs, outputs)?;
        push_universal(&mut nets, alloc, inputs, outputs)?;
    } else if inputs <= MOST_TABLED && outputs <= MOST_TABLED {
        push_tabled(&mut nets, alloc, wish, inputs, outputs)?;
        push_turned(&mut nets, alloc, wish, inputs, outputs)?;
    } else {
        push_made(&mut nets, alloc, wish, inputs, outputs)?;
    }
    Ok(nets)
}

/// Whether nothing is wished for but that all passes where every input is full and every output open.
fn asks_little(wish: Wish) -> bool {
    !wish.balanced && !wish.drawn_evenly && !wish.unlimited && !asks_fairness(wish)
}

/// Whether ends are to share fairly also where some are short.
fn asks_fairness(wish: Wish) -> bool {
    wish.fair || wish.drawn_fairly
}

/// Adds the universal network of which as many ends are left as are wanted.
fn push_universal(
    nets: &mut Vec<Net>,
    alloc: Global,
    inputs: u32,
    outputs: u32,
) -> Result<(), AllocError> {
    let whole = universal(alloc, power_from(inputs.max(outputs)))?;
    let few_in = with_inputs(alloc, &whole, inputs)?;
    let turned_round = mirrored(alloc, &few_in)?;
    let few_both = with_inputs(alloc, &turned_round, outputs)?;
    let block = mirrored(alloc, &few_both)?;
    match net_preferring_ends(alloc, &block)? {
        Some(net) => {
            nets.push(net)?;
            Ok(())
        }
        None => Ok(()),
    }
}

/// What a network of this wish has once all edges are turned round: what outputs had inputs have, and the other way
/// round.
fn turned(wish: Wish) -> Wish {
    Wish {
        balanced: wish.drawn_evenly,
        drawn_evenly: wish.balanced,
        fair: wish.drawn_fairly,
        drawn_fairly: wish.fair,
        ..wish
    }
}

/// Adds the network of a block, where it is one.
fn push_block(nets: &mut Vec<Net>, alloc: Global, block: Block) -> Result<(), AllocError> {
    match net_of(alloc, &block)? {
        Some(net) => {
            nets.push(net)?;
            Ok(())
        }
        None => Ok(()),
    }
}

/// Adds the first block of the table that, with all edges turned round, has these ends and each wished property.
fn push_turned(
    nets: &mut Vec<Net>,
    alloc: Global,
    wish: Wish,
    inputs: u32,
    outputs: u32,
) -> Result<(), AllocError> {
    match tabled(alloc, turned(wish), outputs, inputs)? {
        Some(block) => push_block(nets, alloc, mirrored(alloc, &block)?),
        None => Ok(()),
    }
}

/// Adds the networks of these ends that rules make: an unlimited one, and where none is wished for, those that divide
/// evenly, too.
fn push_made(
    nets: &mut Vec<Net>,
    alloc: Global,
    wish: Wish,
    inputs: u32,
    outputs: u32,
) -> Result<(), AllocError> {
    if !wish.unlimited {
        push_block(
            nets,
            alloc,
            rectangle(alloc, wish, Kind::Even, inputs, outputs)?,
        )?;
        push_product(nets, alloc, inputs, outputs)?;
    }
    push_block(
        nets,
        alloc,
        rectangle(alloc, wish, Kind::Unlimited, inputs, outputs)?,
    )
}

/// The kinds of networks that rules make: those that divide evenly both ways, and those that are unlimited too.
#[derive(Clone, Copy, PartialEq, Eq)]
enum Kind {
    Even,
    Unlimited,
}

/// A network of a kind with these ends. Where the inputs alone are to be drawn evenly, or there are more of them and
/// both ends are treated alike, it is made from the other side and turned round. One of as many inputs as outputs isn't:
/// it divides evenly both ways, and is decided faster as it is made.
fn rectangle(
    alloc: Global,
    wish: Wish,
    kind: Kind,
    inputs: u32,
    outputs: u32,
) -> Result<Block, AllocError> {
    let is_turned = if wish.drawn_evenly == wish.balanced {
        inputs > outputs
    } else {
        wish.drawn_evenly && inputs != outputs
    };
    if is_turned {
        let block = narrow(alloc, turned(wish), kind, outputs, inputs)?;
        return mirrored(alloc, &block);
    }
    narrow(alloc, wish, kind, inputs, outputs)
}

/// A network of a kind with these ends, whose outputs are equal, and whose inputs are, too, where that is wished for
/// and they are fewer.
fn narrow(
    alloc: Global,
    wish: Wish,
    kind: Kind,
    inputs: u32,
    outputs: u32,
) -> Result<Block, AllocError> {
    let last = square(alloc, kind, outputs)?;
    if inputs == outputs {
        return Ok(last);
    }
    if inputs > outputs {
        let first = gathered(alloc, kind, inputs, outputs)?;
        return in_row(alloc, &first, &last);
    }
    let mut spread = with_inputs(alloc, &last, inputs)?;
    prune(alloc, &mut spread, doubled_of(kind, outputs))?;
    if !wish.drawn_evenly {
        return Ok(spread);
    }
    let first = square(alloc, kind, inputs)?;
    in_row(alloc, &first, &spread)
}

/// A block to fewer outputs than inputs, on which comes what can.
fn gathered(alloc: Global, kind: Kind, inputs: u32, outputs: u32) -> Result<Block, AllocError> {
    match kind {
        Kind::Even => brought_to(alloc, inputs, outputs),
        Kind::Unlimited => {
            let all = square(alloc, kind, inputs)?;
            let mut spread = with_inputs(alloc, &all, outputs)?;
            prune(alloc, &mut spread, doubled_of(kind, inputs))?;
            mirrored(alloc, &spread)
        }
    }
}

/// A network of a kind with so many inputs and outputs each.
fn square(alloc: Global, kind: Kind, lines: u32) -> Result<Block, AllocError> {
    match kind {
        Kind::Even => even_square(alloc, lines),
        Kind::Unlimited => tabled_or_staged(alloc, kind, lines),
    }
}

/// What the table has of a kind with so many inputs and outputs each, or else a network in stages of which the last
/// outputs are led back.
fn tabled_or_staged(alloc: Global, kind: Kind, lines: u32) -> Result<Block, AllocError> {
    let wish = match kind {
        Kind::Even => EVEN,
        Kind::Unlimited => ALL,
    };
    if lines <= MOST_TABLED {
        if let Some(block) = tabled(alloc, wish, lines, lines)? {
            return Ok(block);
        }
    }
    staged(alloc, kind, lines)
}

/// A network in stages of which the last outputs are led back.
fn staged(alloc: Global, kind: Kind, lines: u32) -> Result<Block, AllocError> {
    let size = power_from(lines);
    let whole = match kind {
        Kind::Even => butterfly(alloc, size)?,
        Kind::Unlimited => benes(alloc, size)?,
    };
    let mut led = led_back(alloc, &whole, size.saturating_sub(lines))?;
    prune(alloc, &mut led, doubled_of(kind, lines))?;
    Ok(led)
}

/// What becomes of doubled splitters in a network of a kind with so many lines.
fn doubled_of(kind: Kind, lines: u32) -> Doubled {
    if kind == Kind::Unlimited && lines > MOST_LESSENED {
        Doubled::Stays
    } else {
        Doubled::Goes
    }
}

/// The least power of two that is at least so many, up to 64.
fn power_from(lines: u32) -> u32 {
    for power in POWERS {
        if power >= lines {
            return power;
        }
    }
    64
}

/// The network of fewest splitters that divides evenly both ways, of those of the table, those in stages, and products of
/// two such.
fn even_square(alloc: Global, lines: u32) -> Result<Block, AllocError> {
    let mut squares: Vec<Block> = Vec::new(alloc);
    for count in 2..lines {
        if lines.checked_rem(count) == Some(0) {
            let square = best_square(alloc, count, &squares)?;
            squares.push(square)?;
        }
    }
    best_square(alloc, lines, &squares)
}

/// The network of fewest splitters of so many lines that divides evenly both ways, where `squares` are those of the
/// divisors.
fn best_square(alloc: Global, lines: u32, squares: &[Block]) -> Result<Block, AllocError> {
    let mut best = tabled_or_staged(alloc, Kind::Even, lines)?;
    for first in squares {
        for second in squares {
            if first.inputs.saturating_mul(second.inputs) == lines
                && product_size(first, second) < best.splitters
            {
                best = product(alloc, first, second)?;
            }
        }
    }
    Ok(best)
}

/// How many splitters the product of two blocks has.
fn product_size(first: &Block, second: &Block) -> u32 {
    let of_first = first.splitters.saturating_mul(second.inputs);
    of_first.saturating_add(second.splitters.saturating_mul(first.outputs))
}

/// Adds all products of two networks of the table that divide evenly both ways, which have these ends.
fn push_product(
    nets: &mut Vec<Net>,
    alloc: Global,
    inputs: u32,
    outputs: u32,
) -> Result<(), AllocError> {
    for first in 1..MOST_TABLED + 1 {
        for last in 1..MOST_TABLED + 1 {
            push_product_of(nets, alloc, (inputs, outputs), (first, last))?;
        }
    }
    Ok(())
}

/// Adds the product with the ends `ends` of two networks of the table, of which the first has the ends `first`. Adds
/// none where these don't divide those, where more lines lie between the two than there are inputs or outputs, or where
/// the table lacks one of the two. With more lines between it would save a splitter of nine to ten, and deciding would
/// take a minute, since what comes has to be merged again.
fn push_product_of(
    nets: &mut Vec<Net>,
    alloc: Global,
    ends: (u32, u32),
    first: (u32, u32),
) -> Result<(), AllocError> {
    let (Some(inputs), Some(outputs)) = (parted(ends.0, first.0), parted(ends.1, first.1)) else {
        return Ok(());
    };
    if first.1.saturating_mul(inputs) > ends.0.max(ends.1) {
        return Ok(());
    }
    let first = tabled(alloc, EVEN, first.0, first.1)?;
    let second = tabled(alloc, EVEN, inputs, outputs)?;
    match (first, second) {
        (Some(first), Some(second)) => { push_block(nets, alloc, product(alloc, &first, &second)?) }
        _ => Ok(()),
    }
}

/// How many parts of this size make up the whole; none where they don't, or are more than ends in the table.
fn parted(whole: u32, part: u32) -> Option<u32> {
    if whole.checked_rem(part) != Some(0) {
        return None;
    }
    whole
        .checked_div(part)
        .filter(|parts| *parts <= MOST_TABLED)
}
