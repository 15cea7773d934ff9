//! The properties of balancers that a state may break.
ghost use Rattle.std.specs.Prelude.{◌≡◌, ◌↔◌, Some};
ghost use Rattle.bt_flow.specs.Properties.{asks_loads, asks_rooms};
ghost use Rattle.bt_flow.specs.Names.{property_name};

/// A property that the steady states of a balancer may have. (Factorio Wiki, on balancers.)
#[derive(Clone, Copy, PartialEq, Eq)]
pub enum Property {
    /// Where no output is blocked, all output flows are equal.
    Balanced,
    /// Where every input is fully loaded, all input flows are equal.
    DrawnEvenly,
    /// The outputs together get all that is loaded, or all that they take.
    Unlimited,
    /// The same where every input is fully loaded and no output is blocked.
    Full,
    /// Each output that is short of its room carries at least as much as every other output.
    Fair,
    /// Each input that is short of its load gives at least as much as every other input.
    DrawnFairly,
}

impl Property {
    /// The property with this name, where one has it.
    pub fn named(name: &str) -> Option<Property>
        ensures { (p : Property) → (result ≡ Some p) ↔ (name.now ≡ property_name p) }
    {
        match name {
            "balanced" => Some(Property::Balanced),
            "drawn-evenly" => Some(Property::DrawnEvenly),
            "unlimited" => Some(Property::Unlimited),
            "full" => Some(Property::Full),
            "fair" => Some(Property::Fair),
            "drawn-fairly" => Some(Property::DrawnFairly),
            _ => None,
        }
    }

    /// The name of the property, as commands, states and certificates write it.
    pub fn name(self) -> &'static str
        ensures { result.now ≡ property_name self }
    {
        match self {
            Property::Balanced => "balanced",
            Property::DrawnEvenly => "drawn-evenly",
            Property::Unlimited => "unlimited",
            Property::Full => "full",
            Property::Fair => "fair",
            Property::DrawnFairly => "drawn-fairly",
        }
    }

    /// Whether the property speaks only of states in which every input is fully loaded.
    pub fn asks_loads(self) -> bool
        ensures { result ≡ asks_loads self }
    {
        match self {
            Property::Balanced | Property::Unlimited | Property::Fair | Property::DrawnFairly =>
                false,
            Property::DrawnEvenly | Property::Full => true,
        }
    }

    /// Whether the property speaks only of states in which no output is blocked.
    pub fn asks_rooms(self) -> bool
        ensures { result ≡ asks_rooms self }
    {
        match self {
            Property::DrawnEvenly | Property::Unlimited | Property::Fair | Property::DrawnFairly =>
                false,
            Property::Balanced | Property::Full => true,
        }
    }
}
