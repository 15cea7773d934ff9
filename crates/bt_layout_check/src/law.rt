//! What follows where parts lay a request by some names.
ghost use Rattle.std.specs.Prelude.{List};
ghost use Rattle.bt_parts.specs.declared.hand.Priority.{Priority};
ghost use Rattle.bt_parts.specs.declared.part.Part.{Part};
ghost use Rattle.bt_model.specs.Laying.{Lays, LaysPreferring};
ghost use Rattle.bt_model.specs.Requests.{LayoutRequest};
ghost use Rattle.bt_model.specs.Shown.{Naming};
ghost use Rattle.bt_layout_check.specs.Laid.{LaysBy, LaysPreferringBy};

/// Parts lay a request where they lay it by some names, and only there.
pub fn laid_by_names()
    ensures by_names { (parts : List Part) (naming : Naming) (request : LayoutRequest)
        → LaysBy parts naming request → Lays parts request }
    ensures some_names { (parts : List Part) (request : LayoutRequest)
        → Lays parts request → (naming : Naming) × LaysBy parts naming request }
{}

/// Parts with priorities lay a request with what its splitters prefer where they do so by some names, and only there.
pub fn laid_preferring_by_names()
    ensures by_names { (parts : List Part) (priorities : List Priority) (naming : Naming)
        → (request : LayoutRequest)
        → LaysPreferringBy parts priorities naming request → LaysPreferring parts priorities request }
    ensures some_names { (parts : List Part) (priorities : List Priority) (request : LayoutRequest)
        → LaysPreferring parts priorities request
        → (naming : Naming) × LaysPreferringBy parts priorities naming request }
{}
