// The explanations of learned productions (Soar manual, chapter 9: explain).
ghost use Rattle.std.specs.Prelude.{IfOk};
ghost use Rattle.soar_sym.specs.Words.{IsKnown};
ghost use Rattle.defs_run.specs.Carrying.{carried_out};
ghost use Rattle.defs_run.specs.Orders.{explain};
ghost use Rattle.soar_agent.specs.Carries.{Carries};
ghost use Rattle.soar_agent.specs.Explaining.{explains};
ghost use Rattle.soar_agent.specs.Running.{run_learning};
ghost use Rattle.soar_agent.specs.States.{IsReady};

use crate::outcome::Outcome;
use crate::state::Session;
use list_parts::list_chain;
use outstanding::Outstanding;
use session_parts::{Origin, Reason};
use soar_cycle::Stop;
use soar_sym::{Sym, Text};

impl<M: Outstanding> Session<M> {
    /// Says the explanation of the production of a name, where that was learned.
    pub fn explain(
        &mut self,
        origin: &Origin<'_>,
        name: Sym,
        out: &mut Text,
    ) -> Result<Outcome, Stop>
        requires ready { IsReady self.old }
        requires known { IsKnown self.old.agent.parts.table name }
        ensures reply { Carries self.old self.new origin.now.source.now origin.now.line (carried_out run_learning (explain name)) out.old out.new result }
        ensures ready { IfOk result (λ _. IsReady self.new) }
    {
        match self.agent.rules().named(name) {
            Some(rule) => {
                let number = rule.number;
                self.explain_rule(origin, name, number, out)
            }
            None => self.refuse_with(origin, &Reason::NoProduction(name), out),
        }
    }

    /// Says the explanation of the rule of a number, which has the name.
    fn explain_rule(
        &mut self,
        origin: &Origin<'_>,
        name: Sym,
        number: u64,
        out: &mut Text,
    ) -> Result<Outcome, Stop>
        requires ready { IsReady self.old }
        requires known { IsKnown self.old.agent.parts.table name }
        ensures reply { Carries self.old self.new origin.now.source.now origin.now.line (explains name number) out.old out.new result }
        ensures ready { IfOk result (λ _. IsReady self.new) }
    {
        match self.agent.chain(number) {
            Some(chain) => {
                let mut mid_line = self.agent.mid_line();
                list_chain(self.agent.symbols(), name, chain, out, &mut mid_line)?;
                self.agent.set_mid_line(mid_line);
                Ok(Outcome::Done)
            }
            None => self.refuse_with(origin, &Reason::NotALearnedRule(name), out),
        }
    }
}
