//! What a certificate is to show.
use bt_flow::Property;
use bt_parts::{Rect, Tier};

/// What the certificate behind a design, a request or two designs is to show.
#[derive(Clone, Copy)]
pub enum CertificateClaim {
    /// That the design's network has the property, or that it hasn't.
    Flow(Property),
    /// That no parts of the tier lay the request in the rectangle.
    NoLayout(Rect, Option<Tier>),
    /// That the networks of two designs behave the same, or that they don't.
    Same,
}
