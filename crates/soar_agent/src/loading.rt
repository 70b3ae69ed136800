// Loading a production.
ghost use Rattle.std.specs.Prelude.{◌≡◌, false, true, IfOk};
ghost use Rattle.soar_rule.specs.AsItStands.{can_be_matched};
ghost use Rattle.soar_rule.specs.Productions.{production_seen};
ghost use Rattle.soar_rule.specs.Symbols.{AreKnown, symbols_of};
ghost use Rattle.defs_run.specs.Carrying.{loaded};
ghost use Rattle.defs_soar.specs.Pending.{is_justification};
ghost use Rattle.soar_cycle.specs.Calls.{MayBeLoaded};
ghost use Rattle.soar_agent.specs.Carries.{RepliesNothing};
ghost use Rattle.soar_agent.specs.States.{IsReady};

use crate::outcome::Outcome;
use crate::state::Session;
use outstanding::Outstanding;
use soar_cycle::Stop;
use soar_rule::Production;

impl<M: Outstanding> Session<M> {
    /// Loads a production under the next rule number, in the place of that of its name.
    pub fn load(&mut self, production: Production) -> Result<Outcome, Stop>
        requires ready { IsReady self.old }
        requires known { AreKnown self.old.agent.parts.table (symbols_of (production_seen production)) }
        requires unlearned { is_justification production.kind ≡ false }
        requires matchable { can_be_matched (production_seen production) ≡ true }
        requires may_be_loaded { MayBeLoaded self.old.agent.parts.table (production_seen production) }
        ensures reply { RepliesNothing self.old self.new (loaded (production_seen production)) result }
        ensures ready { IfOk result (λ _. IsReady self.new) }
    {
        match self.agent.load(production) {
            Ok(()) => Ok(Outcome::Done),
            Err(stop) => Err(stop),
        }
    }
}
