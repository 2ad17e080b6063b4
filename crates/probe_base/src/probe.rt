ghost use Rattle.std.specs.Prelude.{◌≡◌, ℕ, List, [], ◌∷◌, ◌++◌, OnOk, OnErr};
ghost use Rattle.cbi_base.specs.declared.observation.Observation.{Observation};
ghost use Rattle.probe_base.specs.Told.{GrewByPrefix};

use cbi_base::{Memory, Observation};

/// A watcher of a run.
pub trait Probe: Drop {
    /// What it was told, in order.
    ghost seen: { Self → List Observation };

    /// The text of its line.
    ghost line_text: { Self → List ℕ };

    /// Tells it an observation. After `Memory` its list is as before.
    fn see(&mut self, observation: Observation) -> Result<(), Memory>
        ensures ok { OnOk result (seen self.new ≡ seen self.old ++ observation ∷ []) }
        ensures memory { OnErr result (seen self.new ≡ seen self.old) };

    /// Tells it several observations, in order. After `Memory` it was told the first of them alone.
    fn see_several(&mut self, observations: &[Observation]) -> Result<(), Memory>
        ensures ok { OnOk result (seen self.new ≡ seen self.old ++ observations.now) }
        ensures memory { OnErr result (GrewByPrefix observations.now (seen self.old) (seen self.new)) }
    {
        for observation in observations {
            self.see(*observation)?;
        }
        Ok(())
    }

    /// Appends its line. After `Memory` the text is as before.
    fn line(&self, text: &mut Vec<u8>) -> Result<(), Memory>
        ensures ok { OnOk result (text.new.items ≡ text.old.items ++ line_text self.now) }
        ensures memory { OnErr result (text.new.items ≡ text.old.items) };
}
