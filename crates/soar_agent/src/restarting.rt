// Starting anew.
ghost use Rattle.std.specs.Prelude.{IfOk};
ghost use Rattle.soar_agent.specs.Carries.{RepliesNothing};
ghost use Rattle.soar_agent.specs.Restarting.{restarts};
ghost use Rattle.soar_agent.specs.States.{IsReady};

use crate::outcome::Outcome;
use crate::state::Session;
use command_labels::Labels;
use outstanding::Outstanding;
use soar_cycle::Stop;
use std::alloc::Global;

impl<M: Outstanding> Session<M> {
    /// Starts anew, with the productions and the settings (Soar manual, chapter 9, init-soar). The labels go.
    pub fn restart(&mut self, alloc: Global) -> Result<Outcome, Stop>
        requires { IsReady self.old }
        ensures reply { RepliesNothing self.old self.new restarts result }
        ensures ready { IfOk result (λ _. IsReady self.new) }
    {
        match self.agent.restart() {
            Ok(()) => {
                self.labels = Labels::new(alloc);
                Ok(Outcome::Done)
            }
            Err(stop) => Err(stop),
        }
    }
}
