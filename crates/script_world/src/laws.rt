//! Laws of the world: what a script's turns write, and the world behind them, are one.
ghost use Rattle.std.specs.Prelude.{◌≡◌, ℕ, List};
ghost use Rattle.script_world.specs.House.{IsHoused};
ghost use Rattle.script_world.specs.World.{Seen, Turned, Settled};

use document_laws::moves_keep;
use kit_trait::Kit;

/// From a world that keeps to its rules so many poll turns, or fewer up to one that would do nothing, write one
/// thing and lead to one world, which keeps to its rules too. So the order in which pairs are served is no choice.
pub fn turns_have_one_record<K: Kit>()
    ensures once { (count : ℕ) (s t u : Seen K.Scene) (a b : List ℕ) → IsHoused K.rules K.cut s.house → Turned K.rules K.cut count s a t → Turned K.rules K.cut count s b u → (a ≡ b) × (t ≡ u) }
    ensures housed { (count : ℕ) (s t : Seen K.Scene) (a : List ℕ) → IsHoused K.rules K.cut s.house → Turned K.rules K.cut count s a t → IsHoused K.rules K.cut t.house }
{
    moves_keep::<K>();
}

/// The same of all that settles a world.
pub fn settling_has_one_record<K: Kit>()
    ensures once { (s t u : Seen K.Scene) (a b : List ℕ) → IsHoused K.rules K.cut s.house → Settled K.rules K.cut s a t → Settled K.rules K.cut s b u → (a ≡ b) × (t ≡ u) }
    ensures housed { (s t : Seen K.Scene) (a : List ℕ) → IsHoused K.rules K.cut s.house → Settled K.rules K.cut s a t → IsHoused K.rules K.cut t.house }
{
    moves_keep::<K>();
}
