//! Laws of scripts, for any player.
ghost use Rattle.std.specs.Prelude.{◌≡◌, ◌≢◌, ◌<◌, ◌⊎◌, ℕ, List, Some};
ghost use Rattle.outside.specs.Causes.{Rose};
ghost use Rattle.script_run.specs.Complete.{HasEnd};
ghost use Rattle.script_run.specs.Outcome.{Outcome};
ghost use Rattle.script_run.specs.Uses.{SourceUse, SinkUse, IsTold, CountAlike};
ghost use Rattle.script_run.specs.declared.status.Status.{Status};

use crate::play::Play;
use crate::status::Status;

/// For one told input and one pair of counts of faults, one status is right, want of memory aside: the
/// lines that were read and what is left of them are unique, whatever the source's pieces were and
/// whatever the sink tells.
pub fn one_status<P: Play>()
    ensures { (first : P.State) (source : SourceUse) (sink other : SinkUse) (a b : Status)
        → IsTold source → CountAlike sink other → source.faults < 18446744073709551615 → sink.faults < 18446744073709551615
        → Outcome P.position P.step P.under first source sink a → Outcome P.position P.step P.under first source other b
        → a ≢ Status.Memory → b ≢ Status.Memory → a ≡ b }
{}

/// A script has one transcript: two plays of one told source, from one good state on, that end with the
/// same status, not for want of memory or a failed sink, leave the same in sinks that held the same. So
/// nothing in what a script writes is left to a choice.
pub fn one_transcript<P: Play>()
    ensures { (first : P.State) (source also : SourceUse) (sink other : SinkUse) (status : Status)
        → P.is_good first → IsTold source → also.left ≡ source.left → also.left_now ≡ source.left_now → other.written ≡ sink.written
        → Outcome P.position P.step P.under first source sink status → Outcome P.position P.step P.under first also other status
        → status ≢ Status.Memory → status ≢ Status.WriteFault → sink.written_now ≡ other.written_now }
{
    P::steps_once();
}

/// A told script whose lines all act up to a line `end` in time, over a source and a sink whose counts
/// don't rise, is done, or there was no memory.
pub fn comes_to_its_end<P: Play>()
    ensures { (first : P.State) (source : SourceUse) (sink : SinkUse) (left : List ℕ) (status : Status)
        → source.left ≡ Some left → HasEnd (P.position first) left
        → (Rose source.faults source.faults_now → ⊥) → (Rose sink.faults sink.faults_now → ⊥)
        → Outcome P.position P.step P.under first source sink status
        → (status ≡ Status.Done) ⊎ (status ≡ Status.Memory) }
{}
