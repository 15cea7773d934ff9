//! The splitters of a network, each behind all those to which its edges lead, or from which they come.
use crate::lists::{add, empty_lists, is_set};
use bt_flow::Role;
use bt_net::Net;
use std::alloc::{AllocError, Global};

/// A walk that reaches a splitter when all those that lie before it were reached.
#[derive(Drop)]
struct Walk {
    /// The splitters that were reached, in turn.
    reached: Vec<usize>,
    /// For each splitter how many edges lead to those before it that weren't reached.
    waiting: Vec<usize>,
}

/// The splitters from the outputs back, or from the inputs on, each behind all those before it. Those on loops, and behind
/// loops, are left out.
pub fn loopless(alloc: Global, net: &Net, from_inputs: bool) -> Result<Vec<usize>, AllocError> {
    ordered(alloc, net, from_inputs, &[])
}

/// The splitters in the order of [`loopless`], where the edges with a mark are cut.
pub fn ordered(
    alloc: Global,
    net: &Net,
    from_inputs: bool,
    cut: &[bool],
) -> Result<Vec<usize>, AllocError> {
    let roles = if from_inputs {
        [Role::Into, Role::OutOf]
    } else {
        [Role::OutOf, Role::Into]
    };
    let [before, behind] = roles;
    let mut walk = Walk {
        reached: Vec::new(alloc),
        waiting: vec![in alloc; 0; net.splitters() as usize]?,
    };
    let mut next = empty_lists(alloc, net.splitters())?;
    for (number, edge) in net.edges().iter().enumerate() {
        if let (Some(one), Some(other)) = (before.number_in(edge), behind.number_in(edge)) {
            if !is_set(cut, number) {
                walk.wait(one as usize);
                add(&mut next, Some(other), one as usize)?;
            }
        }
    }
    walk.begin()?;
    // Each splitter is reached once at most.
    for place in 0..net.splitters() as usize {
        match walk.reached.get(place).copied() {
            Some(splitter) => walk.go_on(&next, splitter)?,
            None => break,
        }
    }
    Ok(walk.reached)
}

impl Walk {
    /// Lets a splitter wait for one more.
    fn wait(&mut self, splitter: usize) {
        if splitter < self.waiting.len() {
            self.waiting[splitter] = self.waiting[splitter].saturating_add(1);
        }
    }

    /// Reaches the splitters that wait for none.
    fn begin(&mut self) -> Result<(), AllocError> {
        for splitter in 0..self.waiting.len() {
            if self.waiting[splitter] == 0 {
                self.reached.push(splitter)?;
            }
        }
        Ok(())
    }

    /// Reaches the splitters that waited for this one last.
    fn go_on(&mut self, next: &[Vec<usize>], splitter: usize) -> Result<(), AllocError> {
        if splitter < next.len() {
            for other in &next[splitter] {
                self.free(*other)?;
            }
        }
        Ok(())
    }

    /// Lets a splitter wait for one less, and reaches it where it waits for none then.
    fn free(&mut self, splitter: usize) -> Result<(), AllocError> {
        if splitter < self.waiting.len() && self.waiting[splitter] > 0 {
            self.waiting[splitter] -= 1;
            if self.waiting[splitter] == 0 {
                self.reached.push(splitter)?;
            }
        }
        Ok(())
    }
}
