//! Why there is no design.
//!
//! Each layer below has faults of its own; here they become one list of refusals.
ghost use Rattle.std.specs.Prelude.{◌≡◌};

use crate::refusal::Refusal;
use bt_entities::EntityFault;
use bt_json::JsonFault;
use bt_model::RequestFault;
use bt_net::NetFault;
use bt_recover::{GridFault, RecoverFault};

/// Why there is no design.
#[derive(Clone, Copy)]
pub enum DesignFault {
    Refused(Refusal),
    /// There is no memory.
    Memory,
}

impl From<JsonFault> for DesignFault {
    ghost use Rattle.bt_designs.specs.Refusals.{json_told};

    ghost from_gives = { λ fault told. told ≡ json_told fault };

    fn from(fault: JsonFault) -> Self {
        match fault {
            JsonFault::Json(at) => DesignFault::Refused(Refusal::Json(at)),
            JsonFault::Deep(at) => DesignFault::Refused(Refusal::Deep(at)),
            JsonFault::DuplicateKey(at) => DesignFault::Refused(Refusal::DuplicateKey(at)),
            JsonFault::Memory => DesignFault::Memory,
        }
    }
}

impl From<EntityFault> for DesignFault {
    ghost use Rattle.bt_designs.specs.Refusals.{entity_told};

    ghost from_gives = { λ fault told. told ≡ entity_told fault };

    fn from(fault: EntityFault) -> Self {
        let refusal = match fault {
            EntityFault::NotBlueprint => Refusal::NotBlueprint,
            EntityFault::Book => Refusal::Book,
            EntityFault::TooMany => Refusal::TooMany,
            EntityFault::Unsupported(i, _) => Refusal::Unsupported(i),
            EntityFault::BadMember(i, member) => Refusal::BadMember(i, member),
            EntityFault::OffGrid(i) => Refusal::OffGrid(i),
            EntityFault::Special(i, member) => Refusal::Special(i, member),
            EntityFault::Memory => return DesignFault::Memory,
        };
        DesignFault::Refused(refusal)
    }
}

impl From<GridFault> for DesignFault {
    ghost use Rattle.bt_designs.specs.Refusals.{grid_told};

    ghost from_gives = { λ fault told. told ≡ grid_told fault };

    fn from(fault: GridFault) -> Self {
        match fault {
            GridFault::Overlap(i, j) => DesignFault::Refused(Refusal::Overlap(i, j)),
            GridFault::Memory => DesignFault::Memory,
        }
    }
}

impl From<RecoverFault> for DesignFault {
    ghost use Rattle.bt_designs.specs.Refusals.{layout_told};

    ghost from_gives = { λ fault told. told ≡ layout_told fault };

    fn from(fault: RecoverFault) -> Self {
        let refusal = match fault {
            RecoverFault::Unpaired(i) => Refusal::Unpaired(i),
            RecoverFault::SideLoad(i) => Refusal::SideLoad(i),
            RecoverFault::Blocked(i) => Refusal::Blocked(i),
            RecoverFault::Ring(i) => Refusal::Ring(i),
            RecoverFault::TooLarge => Refusal::TooLarge,
            RecoverFault::NoEnds => Refusal::NoEnds,
            RecoverFault::Memory => return DesignFault::Memory,
        };
        DesignFault::Refused(refusal)
    }
}

impl From<NetFault> for DesignFault {
    ghost use Rattle.bt_designs.specs.Refusals.{net_told};

    ghost from_gives = { λ fault told. told ≡ net_told fault };

    fn from(fault: NetFault) -> Self {
        match fault {
            NetFault::NetLine(line) => DesignFault::Refused(Refusal::NetLine(line)),
            NetFault::TooLarge => DesignFault::Refused(Refusal::TooLarge),
            NetFault::NoEnds => DesignFault::Refused(Refusal::NoEnds),
            NetFault::Memory => DesignFault::Memory,
        }
    }
}

impl From<RequestFault> for DesignFault {
    ghost use Rattle.bt_designs.specs.Refusals.{request_told};

    ghost from_gives = { λ fault told. told ≡ request_told fault };

    fn from(fault: RequestFault) -> Self {
        let refusal = match fault {
            RequestFault::TooLarge => Refusal::TooLarge,
            RequestFault::Cap(edge) => Refusal::Cap(edge),
            RequestFault::Pin(line) => Refusal::Pin(line),
            RequestFault::Block(line) => Refusal::Block(line),
        };
        DesignFault::Refused(refusal)
    }
}
