//! What follows from the definitions of the network that a layout shows.
ghost use Rattle.std.specs.Prelude.{◌≡◌, List};
ghost use Rattle.bt_parts.specs.declared.part.Part.{Part};
ghost use Rattle.bt_net.specs.Network.{Network, HasNoPriorities};
ghost use Rattle.bt_model.specs.Shown.{Naming, Shows, IsNumbered};

use crate::request::{MOST_ACROSS, MOST_CELLS, MOST_EDGES, MOST_ENCODED, MOST_SPLITTERS};

/// A layout shows the network that is numbered for it, with the numbering as the naming.
pub fn numbered_shows()
    ensures { (parts : List Part) (net : Network) (naming : Naming)
        → IsNumbered parts net naming → Shows parts net naming }
{}

/// At most one network without priorities is numbered for a layout, with one numbering.
pub fn one_network()
    ensures net { (parts : List Part) (m n : Network) (a b : Naming)
        → HasNoPriorities m → HasNoPriorities n → IsNumbered parts m a → IsNumbered parts n b → m ≡ n }
    ensures naming { (parts : List Part) (m n : Network) (a b : Naming)
        → IsNumbered parts m a → IsNumbered parts n b → a ≡ b }
{}

/// The limits of a request, as numbers.
pub fn limits_are()
    ensures across { MOST_ACROSS ≡ 160 }
    ensures edges { MOST_EDGES ≡ 1024 }
    ensures splitters { MOST_SPLITTERS ≡ 512 }
    ensures cells { MOST_CELLS ≡ 1024 }
    ensures encoded { MOST_ENCODED ≡ 128 }
{}
