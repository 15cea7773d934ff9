//! The notation of the table's networks: the numbers of inputs, outputs and splitters, and behind each comma an input or
//! a splitter and where edges of it end.

use crate::reading::{push_number, read_net};
use bt_net::Net;
use bt_text::{cut, next_piece, split_once};
use std::alloc::{AllocError, Global};

/// A network's text while its note is read.
#[derive(Drop)]
struct Lines {
    /// The first line, and those of the edges so far.
    edges: Vec<u8>,
    /// The lines of what splitters prefer of these.
    preferences: Vec<u8>,
    /// How many edges there are so far.
    count: u32,
}

/// The network of a note, which begins with a blank; none where it is no such note.
pub fn noted_net(alloc: Global, note: &[u8]) -> Result<Option<Net>, AllocError> {
    let mut lines = Lines {
        edges: Vec::new(alloc),
        preferences: Vec::new(alloc),
        count: 0,
    };
    let (numbers, rest) = cut(note, b',');
    lines.push_first(numbers)?;
    lines.push_all(rest)?;
    lines.end()?;
    read_net(alloc, &lines.edges)
}

impl Lines {
    /// Adds the first line of a network with these numbers.
    fn push_first(&mut self, numbers: &[u8]) -> Result<(), AllocError> {
        self.edges.extend_from_slice(b"net")?;
        self.edges.extend_from_slice(numbers)?;
        self.edges.push(b'\n')?;
        Ok(())
    }

    /// Adds the edges of all starts: those of each begin with a comma.
    fn push_all(&mut self, note: &[u8]) -> Result<(), AllocError> {
        let mut rest = note;
        for _ in 0..note.len() {
            let Some((list, behind)) = next_piece(rest, b',') else {
                return Ok(());
            };
            if let Some((start, targets)) = next_piece(list, b' ') {
                self.push_from(start, targets)?;
            }
            rest = behind;
        }
        Ok(())
    }

    /// Adds the edges that begin at a start, each of which begins with a blank.
    fn push_from(&mut self, start: &[u8], targets: &[u8]) -> Result<(), AllocError> {
        let mut rest = targets;
        for _ in 0..targets.len() {
            let Some((edge, behind)) = next_piece(rest, b' ') else {
                return Ok(());
            };
            let (front, is_taken) = without_mark(edge, b'<');
            let (target, is_given) = without_mark(front, b'>');
            if is_taken {
                self.prefer(b"take ", target)?;
            }
            if is_given {
                self.prefer(b"give ", start)?;
            }
            self.push_edge(start, target)?;
            rest = behind;
        }
        Ok(())
    }

    /// Adds an edge.
    fn push_edge(&mut self, start: &[u8], target: &[u8]) -> Result<(), AllocError> {
        self.edges.extend_from_slice(b"edge ")?;
        self.edges.extend_from_slice(start)?;
        self.edges.push(b' ')?;
        self.edges.extend_from_slice(target)?;
        self.edges.push(b'\n')?;
        self.count = self.count.saturating_add(1);
        Ok(())
    }

    /// Adds that a splitter prefers the edge that comes next.
    fn prefer(&mut self, word: &[u8], splitter: &[u8]) -> Result<(), AllocError> {
        self.preferences.extend_from_slice(word)?;
        self.preferences.extend_from_slice(splitter)?;
        self.preferences.push(b' ')?;
        push_number(&mut self.preferences, self.count)?;
        self.preferences.push(b'\n')?;
        Ok(())
    }

    /// Puts what splitters prefer behind the edges, and the last line behind all.
    fn end(&mut self) -> Result<(), AllocError> {
        self.edges.extend_from_slice(&self.preferences)?;
        self.edges.extend_from_slice(b"end\n")?;
        Ok(())
    }
}

/// A word up to a mark, and whether it has the mark.
fn without_mark(word: &[u8], mark: u8) -> (&[u8], bool) {
    match split_once(word, mark) {
        Some((front, _)) => (front, true),
        None => (word, false),
    }
}
