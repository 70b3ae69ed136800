// Taking a production away.
ghost use Rattle.std.specs.Prelude.{IfOk};
ghost use Rattle.soar_sym.specs.Words.{IsKnown};
ghost use Rattle.defs_run.specs.Carrying.{carried_out, excised};
ghost use Rattle.defs_run.specs.Orders.{excise};
ghost use Rattle.soar_agent.specs.Running.{run_learning};
ghost use Rattle.soar_agent.specs.Carries.{Carries, RepliesNothing};
ghost use Rattle.soar_agent.specs.States.{IsReady};

use crate::outcome::Outcome;
use crate::state::Session;
use outstanding::Outstanding;
use session_parts::{Origin, Reason};
use soar_cycle::Stop;
use soar_sym::{Sym, Text};

impl<M: Outstanding> Session<M> {
    /// Takes the production of a name away, where one is loaded.
    pub fn excise(
        &mut self,
        origin: &Origin<'_>,
        name: Sym,
        out: &mut Text,
    ) -> Result<Outcome, Stop>
        requires ready { IsReady self.old }
        requires known { IsKnown self.old.agent.parts.table name }
        ensures reply { Carries self.old self.new origin.now.source.now origin.now.line (carried_out run_learning (excise name)) out.old out.new result }
        ensures ready { IfOk result (λ _. IsReady self.new) }
    {
        if self.agent.rules().has_name(name) {
            self.take_away(name)
        } else {
            self.refuse_with(origin, &Reason::NoProduction(name), out)
        }
    }

    /// Takes the productions of a name away.
    fn take_away(&mut self, name: Sym) -> Result<Outcome, Stop>
        requires { IsReady self.old }
        ensures reply { RepliesNothing self.old self.new (excised name) result }
        ensures ready { IfOk result (λ _. IsReady self.new) }
    {
        self.agent.excise(name);
        Ok(Outcome::Done)
    }
}
