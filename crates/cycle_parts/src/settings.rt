// Settings.
ghost use Rattle.std.specs.Prelude.{◌≡◌};
ghost use Rattle.cycle_parts.specs.Bonds.{Bond};
ghost use Rattle.decision_parts.specs.Lawful.{IsOfLawful};
ghost use Rattle.decision_parts.specs.Seen.{IsSound};

use crate::engine::Engine;
use decision_parts::Settings;
use outstanding::Outstanding;

impl<M: Outstanding> Engine<M> {
    /// Sets what a user may choose.
    pub fn set(&mut self, settings: Settings)
        requires sound { IsSound self.old.parts }
        requires lawful { IsOfLawful self.old.parts }
        requires bond { Bond (M.rules self.old.matcher) (M.elements self.old.matcher) (M.failed self.old.matcher) (M.knows self.old.matcher) self.old.parts }
        ensures parts { self.new.parts ≡ record self.old.parts { settings = settings } }
        ensures sound { IsSound self.new.parts }
        ensures lawful { IsOfLawful self.new.parts }
        ensures bond { Bond (M.rules self.new.matcher) (M.elements self.new.matcher) (M.failed self.new.matcher) (M.knows self.new.matcher) self.new.parts }
    {
        self.parts.settings = settings;
    }
}
