//! The fields of the rectangle at hand and of those that are a line less, which are kept with what they learnt.
use crate::field::{Field, Likeness};
use bt_model::Request;
use bt_parts::Rect;
use std::alloc::{AllocError, Global};

/// Fields of a request in several rectangles.
#[derive(Drop)]
pub struct Fields {
    fields: Vec<Field>,
    /// How long the searches of those took that were dropped, in conflicts.
    dropped: u64,
}

impl Fields {
    /// No fields.
    pub fn new(alloc: Global) -> Fields {
        Fields {
            fields: Vec::new(alloc),
            dropped: 0,
        }
    }

    /// The place of the field of a rectangle, where there is one.
    fn find(&self, rect: Rect) -> Option<usize> {
        for place in 0..self.fields.len() {
            if self.fields[place].rect() == rect {
                return Some(place);
            }
        }
        None
    }

    /// Makes the field of a request in a rectangle, where there is none.
    pub fn prepare(
        &mut self,
        alloc: Global,
        request: &Request,
        rect: Rect,
    ) -> Result<(), AllocError> {
        if self.find(rect).is_some() {
            return Ok(());
        }
        if let Some(field) = Field::new(alloc, request, rect, Likeness::Any)? {
            self.fields.push(field)?;
        }
        Ok(())
    }

    /// The field of a rectangle, where there is one.
    pub fn get(&mut self, rect: Rect) -> Option<&mut Field> {
        let place = self.find(rect)?;
        self.fields.get_mut(place)
    }

    /// Drops the fields of wider and of higher rectangles.
    pub fn drop_greater(&mut self, rect: Rect) {
        for _ in 0..self.fields.len() {
            let Some(place) = self.greater(rect) else {
                break;
            };
            if place < self.fields.len() {
                let field = self.fields.swap_remove(place);
                self.dropped = self.dropped.saturating_add(field.effort());
            }
        }
    }

    /// The place of the field of a rectangle that is wider or higher.
    fn greater(&self, rect: Rect) -> Option<usize> {
        for place in 0..self.fields.len() {
            let other = self.fields[place].rect();
            if other.width > rect.width || other.height > rect.height {
                return Some(place);
            }
        }
        None
    }

    /// How long all searches took, in conflicts.
    pub fn effort(&self) -> u64 {
        let mut sum = self.dropped;
        for field in &self.fields {
            sum = sum.saturating_add(field.effort());
        }
        sum
    }
}
