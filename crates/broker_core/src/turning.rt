//! A turn: the ready saves are served, or else the next input is applied, or else the pair that is next is
//! served.
ghost use Rattle.std.specs.Prelude.{◌≡◌, ◌≤◌, length, nat_lt, IfOk};
ghost use Rattle.document_machine.specs.Goes.{DoesNext};

use crate::core_of::Core;
use cool_base::Memory;
use document_machine::Turned;
use kit_trait::Kit;

impl<K: Kit> Core<K> {
    /// Whether some accepted input is not applied.
    fn is_behind(&self) -> bool
        ensures behind { result ≡ nat_lt self.now.document.applied (length self.now.document.journal) }
        ensures level { self.now.document.applied ≤ length self.now.document.journal }
    {
        self.inputs.applied < self.inputs.accepted.len() as u64
    }

    /// One turn: the one work that is next. Idle exactly where there is nothing to do.
    pub(crate) fn turn(self) -> Result<(Core<K>, Turned<K::Scene>), Memory>
        ensures { IfOk result (λ r. DoesNext K.rules K.cut self r.1 r.0) }
    {
        if self.has_ready_save() {
            let (core, outs) = self.serve()?;
            return Ok((core, Turned::Worked(outs)));
        }
        if self.is_behind() {
            let (core, outs) = self.apply()?;
            return Ok((core, Turned::Worked(outs)));
        }
        self.serve_next()
    }
}
