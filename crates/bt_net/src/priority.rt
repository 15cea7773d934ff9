//! What splitters prefer, and the lines that say so.
ghost use Rattle.std.specs.Prelude.{◌≡◌, ◌↔◌, ℕ, ◌^◌, ◌<◌, ◌++◌, codes, decimal, IsTrue, IfSome, IfNone, IfOk, length, false, replicate, slice_index_or};
ghost use Rattle.bt_net.specs.Network.{Network, none_each, preferred_in};
ghost use Rattle.bt_net.specs.Priorities.{priority_text, IsFreeFor, with_priority};
ghost use Rattle.bt_net.specs.inner.Preferred.{PriorityFits, HasPlace, told};
ghost use Rattle.bt_net.specs.declared.network.Priority.{Priority};

use crate::network::Priority;
use crate::words::{is_word, read_number};
use bt_text::{after_word, split_once};
use std::alloc::{AllocError, Global};

/// For each splitter the out edge and the in edge that it prefers, where it prefers one.
#[derive(Drop)]
pub struct PreferredEdges {
    pub gives: Vec<Option<usize>>,
    pub takes: Vec<Option<usize>>,
}

/// What lines of priorities say: for each splitter the out edge and the in edge that it prefers, where it prefers one,
/// and whether it may prefer any in edge or none.
#[derive(Drop)]
pub struct Preferred {
    pub gives: Vec<Option<usize>>,
    pub takes: Vec<Option<usize>>,
    pub merges: Vec<bool>,
}

/// The edge that a list of preferred edges, by the numbers of splitters, has for a splitter. None where it has none, or
/// the list is too short.
pub fn edge_at(edges: &[Option<usize>], splitter: usize) -> Option<usize>
    ensures { result ≡ preferred_in edges.now splitter }
{
    match edges.get(splitter) {
        Some(edge) => *edge,
        None => None,
    }
}

/// What a list has for a splitter that says of each whether it may prefer any in edge. False where the list is too
/// short.
pub fn merges_at(merges: &[bool], splitter: usize) -> bool
    ensures { result ≡ slice_index_or merges.now splitter false }
{
    match merges.get(splitter) {
        Some(any) => *any,
        None => false,
    }
}

/// A list of preferred edges in which none of so many splitters prefers one.
pub fn none_each(alloc: Global, splitters: usize) -> Result<Vec<Option<usize>>, AllocError>
    ensures { IfOk result (λ edges. edges.items ≡ none_each splitters) }
{
    let mut edges = Vec::new(alloc);
    for _ in 0..splitters {
        edges.push(None)?;
    }
    Ok(edges)
}

/// A list that says of none of so many splitters that it may prefer any in edge.
pub fn even_each(alloc: Global, splitters: usize) -> Result<Vec<bool>, AllocError>
    ensures { IfOk result (λ merges. merges.items ≡ replicate splitters false) }
{
    vec![in alloc; false; splitters]
}

/// Whether nothing is said yet of a splitter's in edges.
fn has_free_in(preferred: &Preferred, splitter: u32) -> bool
    ensures { IsTrue result ↔ ((preferred_in preferred.now.takes.items splitter ≡ None)
        × (slice_index_or preferred.now.merges.items splitter false ≡ false)) }
{
    edge_at(&preferred.takes, splitter as usize).is_none()
        && !merges_at(&preferred.merges, splitter as usize)
}

/// Whether nothing is said yet of the splitter's out edges, where the priority speaks of these; or of its in edges.
pub fn is_free(preferred: &Preferred, priority: Priority) -> bool
    ensures { (n : Network) → IsTrue result ↔ IsFreeFor (told n preferred.now) priority }
{
    match priority {
        Priority::Give { splitter, .. } => edge_at(&preferred.gives, splitter as usize).is_none(),
        Priority::Take { splitter, .. } | Priority::Any { splitter } => {
            has_free_in(preferred, splitter)
        }
    }
}

/// Lets the priority's splitter prefer its edge, as an out edge or as an in edge, or any in edge.
pub fn prefer(preferred: &mut Preferred, priority: Priority)
    requires { HasPlace preferred.old priority }
    ensures { (n : Network) → told n preferred.new ≡ with_priority (told n preferred.old) priority }
{
    match priority {
        Priority::Give { splitter, edge } => {
            preferred.gives[splitter as usize] = Some(edge as usize);
        }
        Priority::Take { splitter, edge } => {
            preferred.takes[splitter as usize] = Some(edge as usize);
        }
        Priority::Any { splitter } => {
            preferred.merges[splitter as usize] = true;
        }
    }
}

/// The priority of a line `give sN E`, `take sN E` or `take sN any`. None where it is another line.
pub fn read_priority(line: &[u8]) -> Option<Priority>
    ensures some { IfSome result (λ p. line.now ≡ priority_text p) }
    ensures fits { IfSome result PriorityFits }
    ensures none { IfNone result ((p : Priority) → PriorityFits p → line.now ≡ priority_text p → ⊥) }
{
    match after_word(line, b"give s") {
        Some(words) => read_give(words),
        None => match after_word(line, b"take s") {
            Some(words) => read_take(words),
            None => None,
        },
    }
}

/// The priority of an out edge, by the words behind `give s`: the numbers of the splitter and of the edge. None where
/// they are other words.
fn read_give(words: &[u8]) -> Option<Priority>
    ensures some { IfSome result (λ p. codes "give s" ++ words.now ≡ priority_text p) }
    ensures fits { IfSome result PriorityFits }
    ensures none { IfNone result ((p : Priority) → PriorityFits p
        → codes "give s" ++ words.now ≡ priority_text p → ⊥) }
{
    match read_numbers(words) {
        Some((splitter, edge)) => Some(Priority::Give { splitter, edge }),
        None => None,
    }
}

/// The priority of in edges, by the words behind `take s`: the number of the splitter, and that of the edge or `any`.
/// None where they are other words.
fn read_take(words: &[u8]) -> Option<Priority>
    ensures some { IfSome result (λ p. codes "take s" ++ words.now ≡ priority_text p) }
    ensures fits { IfSome result PriorityFits }
    ensures none { IfNone result ((p : Priority) → PriorityFits p
        → codes "take s" ++ words.now ≡ priority_text p → ⊥) }
{
    match read_numbers(words) {
        Some((splitter, edge)) => Some(Priority::Take { splitter, edge }),
        None => match read_any(words) {
            Some(splitter) => Some(Priority::Any { splitter }),
            None => None,
        },
    }
}

/// The number of a splitter that the words spell before ` any`. None where they are other words.
fn read_any(words: &[u8]) -> Option<u32>
    ensures some { IfSome result (λ k. words.now ≡ decimal k ++ codes " any") }
    ensures none { IfNone result ((k : ℕ) → k < 2 ^ 32 → words.now ≡ decimal k ++ codes " any" → ⊥) }
{
    let (splitter, word) = split_once(words, b' ')?;
    if is_word(word, b"any") {
        read_number(splitter)
    } else {
        None
    }
}

/// The two numbers, with a space between them, that the words spell. None where they are other words.
fn read_numbers(words: &[u8]) -> Option<(u32, u32)>
    ensures some { IfSome result (λ found. words.now ≡ decimal found.0 ++ codes " " ++ decimal found.1) }
    ensures none { IfNone result ((k a : ℕ) → k < 2 ^ 32 → a < 2 ^ 32
        → words.now ≡ decimal k ++ codes " " ++ decimal a → ⊥) }
{
    let (first, second) = split_once(words, b' ')?;
    let first = read_number(first)?;
    let second = read_number(second)?;
    Some((first, second))
}
