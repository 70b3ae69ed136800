// Commands that look at the agent.
ghost use Rattle.std.specs.Prelude.{◌≡◌, Some, IfOk, map};
ghost use Rattle.soar_sym.specs.Words.{IsKnown};
ghost use Rattle.soar_wm.specs.WorkingMemory.{elements_of};
ghost use Rattle.defs_match.specs.Rules.{RuleOf, rule_seen};
ghost use Rattle.defs_run.specs.Carrying.{carried_out, lists_elements, rule_named};
ghost use Rattle.defs_run.specs.Listing.{conflict_lines, element_lines};
ghost use Rattle.defs_run.specs.Orders.{matches_of, print_id, print_name};
ghost use Rattle.soar_agent.specs.Running.{run_learning};
ghost use Rattle.defs_run.specs.Sessions.{says};
ghost use Rattle.command_orders.specs.Asked.{operand_seen};
ghost use Rattle.command_orders.specs.Known.{IsOperandKnown};
ghost use Rattle.soar_agent.specs.Carries.{Carries, Replies};
ghost use Rattle.soar_agent.specs.States.{IsReady};

use crate::outcome::Outcome;
use crate::state::Session;
use defs_run::Operand;
use list_parts::list_matches_of;
use outstanding::Outstanding;
use session_parts::{Origin, Reason, say_elements_of, say_matches, say_production};
use soar_cycle::Stop;
use soar_sym::{Sym, Text};

impl<M: Outstanding> Session<M> {
    /// Says the conflict set.
    pub fn list_matches(&mut self, out: &mut Text) -> Result<Outcome, Stop>
        requires { IsReady self.old }
        ensures reply { Replies self.old self.new (λ s. says s (conflict_lines s.agent)) out.old out.new result }
        ensures ready { IfOk result (λ _. IsReady self.new) }
    {
        // an agent that stands for a state meets no limit here
        let Ok(instances) = self.agent.conflict() else {
            return Err(Stop::NoMemory);
        };
        let mut mid_line = self.agent.mid_line();
        say_matches(
            self.agent.symbols(),
            self.agent.rules(),
            &instances,
            out,
            &mut mid_line,
        )?;
        self.agent.set_mid_line(mid_line);
        Ok(Outcome::Done)
    }

    /// Says the matches of the production of a name.
    pub fn list_matches_named(
        &mut self,
        origin: &Origin<'_>,
        name: Sym,
        out: &mut Text,
    ) -> Result<Outcome, Stop>
        requires ready { IsReady self.old }
        requires known { IsKnown self.old.agent.parts.table name }
        ensures reply { Carries self.old self.new origin.now.source.now origin.now.line (carried_out run_learning (matches_of name)) out.old out.new result }
        ensures ready { IfOk result (λ _. IsReady self.new) }
    {
        let number = self.number_named(name);
        // an agent that stands for a state meets no limit here
        let Ok(instances) = self.agent.instances_of(number) else {
            return Err(Stop::NoMemory);
        };
        match self.agent.rules().named(name) {
            Some(rule) => {
                let mut mid_line = self.agent.mid_line();
                list_matches_of(
                    self.agent.symbols(),
                    rule,
                    instances.as_slice(),
                    out,
                    &mut mid_line,
                )?;
                self.agent.set_mid_line(mid_line);
                Ok(Outcome::Done)
            }
            None => self.refuse_with(origin, &Reason::NoProduction(name), out),
        }
    }

    /// The number of the production of a name, and 0 where there is none.
    fn number_named(&self, name: Sym) -> u64
        ensures { (r : RuleOf) → rule_named (map rule_seen self.now.agent.parts.rules) name ≡ Some r → result ≡ r.number }
    {
        match self.agent.rules().named(name) {
            Some(rule) => rule.number,
            None => 0,
        }
    }

    /// Says the elements of an identifier. A label that is used for the first time becomes a new one.
    pub fn list_elements(
        &mut self,
        origin: &Origin<'_>,
        id: Operand,
        out: &mut Text,
    ) -> Result<Outcome, Stop>
        requires ready { IsReady self.old }
        requires known { IsOperandKnown self.old.agent.parts.table id }
        ensures reply { Carries self.old self.new origin.now.source.now origin.now.line (carried_out run_learning (print_id (operand_seen id))) out.old out.new result }
        ensures ready { IfOk result (λ _. IsReady self.new) }
    {
        match self.lookup(out.allocator()).unknown_in(&id)? {
            Some(text) => self.refuse_with(origin, &Reason::UnknownIdentifier(text.as_str()), out),
            None => self.list_given(id, out),
        }
    }

    fn list_given(&mut self, id: Operand, out: &mut Text) -> Result<Outcome, Stop>
        requires ready { IsReady self.old }
        requires known { IsOperandKnown self.old.agent.parts.table id }
        ensures reply { Replies self.old self.new (λ s. lists_elements s (operand_seen id)) out.old out.new result }
        ensures ready { IfOk result (λ _. IsReady self.new) }
    {
        match self.resolve(id) {
            Ok(symbol) => self.list_symbol(symbol, out),
            Err(stop) => Err(stop),
        }
    }

    fn list_symbol(&mut self, id: Sym, out: &mut Text) -> Result<Outcome, Stop>
        requires { IsReady self.old }
        ensures reply { Replies self.old self.new (λ s. says s (element_lines s.agent.names.words (elements_of id s.agent.holding.elements))) out.old out.new result }
        ensures ready { IfOk result (λ _. IsReady self.new) }
    {
        let agent = &self.agent;
        let mut mid_line = agent.mid_line();
        say_elements_of(agent.symbols(), agent.memory(), id, out, &mut mid_line)?;
        self.agent.set_mid_line(mid_line);
        Ok(Outcome::Done)
    }

    /// Says the production of a name.
    pub fn show_rule(
        &mut self,
        origin: &Origin<'_>,
        name: Sym,
        out: &mut Text,
    ) -> Result<Outcome, Stop>
        requires ready { IsReady self.old }
        requires known { IsKnown self.old.agent.parts.table name }
        ensures reply { Carries self.old self.new origin.now.source.now origin.now.line (carried_out run_learning (print_name name)) out.old out.new result }
        ensures ready { IfOk result (λ _. IsReady self.new) }
    {
        match self.agent.rules().named(name) {
            Some(rule) => {
                let mut mid_line = self.agent.mid_line();
                say_production(self.agent.symbols(), &rule.production, out, &mut mid_line)?;
                self.agent.set_mid_line(mid_line);
                Ok(Outcome::Done)
            }
            None => self.refuse_with(origin, &Reason::NoProduction(name), out),
        }
    }
}
