//! What follows from the definition of the network that a layout with priorities shows.
ghost use Rattle.std.specs.Prelude.{◌≡◌, ℕ, List, Result};
ghost use Rattle.bt_parts.specs.declared.hand.Priority.{Priority};
ghost use Rattle.bt_parts.specs.declared.part.Part.{Part};
ghost use Rattle.bt_net.specs.Network.{Network};
ghost use Rattle.bt_model.specs.Shown.{Naming};
ghost use Rattle.bt_recover.specs.declared.fault.RecoverFault.{RecoverFault};
ghost use Rattle.bt_recover.specs.Recovered.{IsRecovered};
ghost use Rattle.bt_recover.specs.Preferred.{no_priority, priority_of, IsPreferring, IsRecoveredWith};

/// At most one network is numbered for a layout with priorities, with one numbering.
pub fn one_preferring()
    ensures net { (parts : List Part) (priorities : List Priority) (m n : Network) (a b : Naming)
        → IsPreferring parts priorities m a → IsPreferring parts priorities n b → m ≡ n }
    ensures naming { (parts : List Part) (priorities : List Priority) (m n : Network) (a b : Naming)
        → IsPreferring parts priorities m a → IsPreferring parts priorities n b → a ≡ b }
{}

/// Where no part has a priority, what is recovered with priorities is what is recovered without.
pub fn plain_recovery()
    ensures { (parts : List Part) (priorities : List Priority)
        → ((i : ℕ) → priority_of priorities i ≡ no_priority)
        → (told : Result (Network × Naming) RecoverFault)
        → IsRecoveredWith parts priorities told → IsRecovered parts told }
{}
