//! The edges of which a flow formula's columns and rows speak.
use bt_cnf::Formula;
use bt_flow::Role;
use bt_frac::{Frac, Relation, Row};
use bt_net::{Edge, Net};
use std::alloc::{AllocError, Global};

/// For each edge the rows whose terms are all its flow, or the load or the room at its end.
pub fn rows_alone(alloc: Global, net: &Net, rows: &[Row]) -> Result<Vec<Vec<usize>>, AllocError> {
    let columns = edges_of_columns(alloc, net)?;
    let mut alone = Vec::new(alloc);
    for _ in 0..net.edges().len() {
        alone.push(Vec::new(alloc))?;
    }
    for (place, row) in rows.iter().enumerate() {
        if let Some(edge) = only_edge(&columns, row.terms()) {
            if edge < alone.len() {
                alone[edge].push(place)?;
            }
        }
    }
    Ok(alone)
}

/// The edge of whose columns all terms are, where there is one.
fn only_edge(columns: &[usize], terms: &[(usize, Frac)]) -> Option<usize> {
    let (first, _) = terms.first()?;
    let edge = *columns.get(*first)?;
    for (column, _) in terms {
        if *columns.get(*column)? != edge {
            return None;
        }
    }
    Some(edge)
}

/// For each column the edge whose flow it is, or of which it is the load or the room.
pub fn edges_of_columns(alloc: Global, net: &Net) -> Result<Vec<usize>, AllocError> {
    let mut columns = Vec::new(alloc);
    let mut loads = vec![in alloc; 0; net.inputs() as usize]?;
    let mut rooms = vec![in alloc; 0; net.outputs() as usize]?;
    for (number, edge) in net.edges().iter().enumerate() {
        columns.push(number)?;
        put(&mut loads, Role::FromInput.number_in(edge), number);
        put(&mut rooms, Role::ToOutput.number_in(edge), number);
    }
    columns.extend_from_slice(&loads)?;
    columns.extend_from_slice(&rooms)?;
    Ok(columns)
}

/// Puts an edge at the number of its end, where it has one.
fn put(all: &mut [usize], number: Option<u32>, edge: usize) {
    if let Some(number) = number {
        let place = number as usize;
        if place < all.len() {
            all[place] = edge;
        }
    }
}

/// Whether the edge is at an end of the network.
pub fn is_at_end(edge: &Edge) -> bool {
    Role::FromInput.number_in(edge).is_some() || Role::ToOutput.number_in(edge).is_some()
}

/// Whether all terms of a row are of edges at ends, by the edges of the columns.
pub fn is_of_ends(net: &Net, columns: &[usize], row: &Row) -> bool {
    row.terms().iter().all(|(column, _)| match columns.get(*column) {
        Some(edge) => is_end(net, *edge),
        None => false,
    })
}

/// Whether the edge with a number is at an end.
fn is_end(net: &Net, number: usize) -> bool {
    match net.edges().get(number) {
        Some(edge) => is_at_end(edge),
        None => false,
    }
}

/// The places of the rows that say that a sum is equal to its bound.
pub fn equal_rows(alloc: Global, formula: &Formula) -> Result<Vec<usize>, AllocError> {
    let mut rows = Vec::new(alloc);
    for (place, row) in formula.rows().iter().enumerate() {
        if row.relation() == Relation::Equal {
            rows.push(place)?;
        }
    }
    Ok(rows)
}
