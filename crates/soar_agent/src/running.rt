// Running cycles.
ghost use Rattle.std.specs.Prelude.{◌≡◌, List as ListOf, IfOk};
ghost use Rattle.defs_soar.specs.Cycle.{cycle};
ghost use Rattle.defs_soar.specs.Decision.{decided_by};
ghost use Rattle.defs_soar.specs.History.{RecordedFiring};
ghost use Rattle.defs_soar.specs.Learning.{with_learning};
ghost use Rattle.defs_run.specs.Orders.{run_cycles};
ghost use Rattle.soar_cycle.specs.Remembers.{Remembers};
ghost use Rattle.soar_cycle.specs.Seen.{agent_of};
ghost use Rattle.soar_cycle.specs.Agents.{StaysAsItIs, standing_after};
ghost use Rattle.soar_agent.specs.Carries.{CarriesOut};
ghost use Rattle.soar_agent.specs.Commands.{Cycled};
ghost use Rattle.soar_agent.specs.States.{IsReady, IsSoundSession, StaysStopped};

use crate::outcome::Outcome;
use crate::standing::standing_after;
use crate::state::Session;
use outstanding::Outstanding;
use session_parts::{Origin, Reason, say_stop};
use soar_cycle::{Standing, Stop};
use soar_sym::Text;

impl<M: Outstanding> Session<M> {
    /// Asks for so many cycles, unless the agent is halted.
    pub fn ask_to_run(
        &mut self,
        origin: &Origin<'_>,
        count: u32,
        out: &mut Text,
    ) -> Result<Outcome, Stop>
        requires { IsReady self.old }
        ensures command { CarriesOut self.old self.new origin.now.source.now origin.now.line (run_cycles count) out.old out.new result }
        ensures ready { IfOk result (λ _. IsReady self.new) }
    {
        if self.agent.halted() {
            return self.refuse_with(origin, &Reason::Halted, out);
        }
        Ok(Outcome::Run(count))
    }

    /// Runs a cycle, and appends what it says. At a limit that is what comes before, and the line of the limit;
    /// nothing where there is no memory. True exactly where the agent is halted in the end.
    pub fn cycle(&mut self, text: &mut Text) -> Result<bool, Stop>
        requires { IsSoundSession self.old }
        ensures course { self.old.standing ≡ Standing.Stands → (history : ListOf RecordedFiring) → Remembers self.old.agent.parts history →
            Cycled self.old.agent.parts.settings.watch self.old.agent.mid_line (cycle decided_by with_learning (agent_of self.old.agent.parts history)) self.new.agent text.old text.new result }
        ensures halted { IfOk result (λ halted. halted ≡ self.new.agent.parts.halted) }
        ensures labels { self.new.labels ≡ self.old.labels }
        ensures settings { self.new.agent.parts.settings ≡ self.old.agent.parts.settings }
        ensures standing { self.new.standing ≡ standing_after self.old.standing result }
        ensures stopped { StaysStopped self.old.standing text.old text.new result }
        ensures still { StaysAsItIs self.old.standing self.old self.new }
        ensures sound { IsSoundSession self.new }
    {
        let standing = self.standing;
        if let Some(stop) = standing.stop() {
            return Err(stop);
        }
        let answer = self.run_cycle(text);
        self.standing = standing_after(standing, &answer);
        answer
    }

    fn run_cycle(&mut self, text: &mut Text) -> Result<bool, Stop>
        requires { IsReady self.old }
        ensures course { (history : ListOf RecordedFiring) → Remembers self.old.agent.parts history →
            Cycled self.old.agent.parts.settings.watch self.old.agent.mid_line (cycle decided_by with_learning (agent_of self.old.agent.parts history)) self.new.agent text.old text.new result }
        ensures halted { IfOk result (λ halted. halted ≡ self.new.agent.parts.halted) }
        ensures labels { self.new.labels ≡ self.old.labels }
        ensures settings { self.new.agent.parts.settings ≡ self.old.agent.parts.settings }
        ensures ready { IfOk result (λ _. IsReady self.new) }
    {
        let mut said = Text::new(text.allocator());
        match self.agent.cycle(&mut said) {
            Ok(halted) => {
                text.push_str(said.as_str())?;
                Ok(halted)
            }
            Err(stop) => Err(say_stop(stop, self.agent.mid_line(), &mut said, text)),
        }
    }
}
