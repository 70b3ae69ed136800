// Waves, phases, decisions and cycles (Soar manual, chapter 2, execution cycle).
ghost use Rattle.std.specs.Prelude.{◌≡◌, false, Err, IfOk};
ghost use Rattle.defs_soar.specs.Agents.{Agent as AgentOf};
ghost use Rattle.soar_cycle.specs.Agents.{IsSoundAgent, IsStopped, StaysAsItIs, standing_after};
ghost use Rattle.soar_cycle.specs.Chunks.{LearnsWell};
ghost use Rattle.cycle_phases.specs.Stands.{Stands};
ghost use Rattle.defs_soar.specs.Cycle.{cycle};
ghost use Rattle.defs_soar.specs.Decision.{decided_by};
ghost use Rattle.defs_soar.specs.Learning.{with_learning};
ghost use Rattle.cycle_phases.specs.Stepping.{GoesStep};
ghost use Rattle.cycle_phases.specs.Waving.{WavesFrom, is_proposing};
ghost use Rattle.cycle_phases.specs.Courses.{Goes, IsEndOf, phase_course, phased};

use crate::agent::Agent;
use crate::standing::{Standing, standing_after};
use crate::telling::tell;
use cycle_phases::{Ended, Stop, Waved, run_cycle, run_phase};
use outstanding::Outstanding;
use soar_sym::Text;
use trace_lines::Phase;

impl<M: Outstanding> Agent<M> {
    /// Runs a wave of a phase, and appends what is told of it. Nothing is appended where memory is wanting. What it
    /// learns can be trusted: each of its chunks goes again where it was learned.
    pub fn wave(&mut self, phase: Phase, text: &mut Text) -> Result<Waved, Stop>
        requires sound { IsSoundAgent self.old }
        ensures step { self.old.standing ≡ Standing.Stands → (s : AgentOf) → Stands self.old.parts s → WavesFrom self.old.parts.settings.watch (is_proposing phase) s self.old.parts self.new.parts self.old.mid_line self.new.mid_line text.old text.new result }
        ensures chunks { self.old.standing ≡ Standing.Stands → LearnsWell self.old.parts phase }
        ensures settings { self.new.parts.settings ≡ self.old.parts.settings }
        ensures standing { self.new.standing ≡ standing_after self.old.standing result }
        ensures stopped { IsStopped self.old.standing result }
        ensures still { StaysAsItIs self.old.standing self.old self.new }
        ensures silent { StaysAsItIs self.old.standing text.old text.new }
        ensures sound { IsSoundAgent self.new }
        ensures unwritten { result ≡ Err Stop.NoMemory → text.new ≡ text.old }
    {
        if let Some(stop) = self.standing.stop() {
            return Err(stop);
        }
        let mut said = Text::new(self.alloc);
        let answer = self
            .engine
            .wave(self.alloc, phase, &mut said, &mut self.mid_line);
        let answer = tell(answer, &said, text);
        self.standing = standing_after(self.standing, &answer);
        answer
    }

    /// Runs a phase: waves until nothing is pending, a firing halts, or there were as many as are allowed.
    pub fn phase(&mut self, phase: Phase, text: &mut Text) -> Result<Ended, Stop>
        requires sound { IsSoundAgent self.old }
        ensures step { self.old.standing ≡ Standing.Stands → (s : AgentOf) → Stands self.old.parts s → Goes self.old.parts.settings.watch self.old.mid_line (phase_course phase s) self.new.parts self.new.mid_line text.old text.new result }
        ensures end { self.old.standing ≡ Standing.Stands → (s : AgentOf) → Stands self.old.parts s → IsEndOf (phased phase s) result }
        ensures settings { self.new.parts.settings ≡ self.old.parts.settings }
        ensures standing { self.new.standing ≡ standing_after self.old.standing result }
        ensures stopped { IsStopped self.old.standing result }
        ensures still { StaysAsItIs self.old.standing self.old self.new }
        ensures silent { StaysAsItIs self.old.standing text.old text.new }
        ensures sound { IsSoundAgent self.new }
        ensures unwritten { result ≡ Err Stop.NoMemory → text.new ≡ text.old }
    {
        if let Some(stop) = self.standing.stop() {
            return Err(stop);
        }
        let mut said = Text::new(self.alloc);
        let answer = run_phase(
            &mut self.engine,
            self.alloc,
            phase,
            &mut said,
            &mut self.mid_line,
        );
        let answer = tell(answer, &said, text);
        self.standing = standing_after(self.standing, &answer);
        answer
    }

    /// Decides, and tells what came of it. True exactly where the limit of goals halted the agent.
    pub fn decide(&mut self, text: &mut Text) -> Result<bool, Stop>
        requires sound { IsSoundAgent self.old }
        ensures step { self.old.standing ≡ Standing.Stands → (s : AgentOf) → Stands self.old.parts s → GoesStep self.old.parts.settings.watch self.old.mid_line (decided_by s) self.new.parts self.new.mid_line text.old text.new result }
        ensures limit { self.old.standing ≡ Standing.Stands → (s : AgentOf) → Stands self.old.parts s → IfOk result (λ halted. halted ≡ (decided_by s).halted) }
        ensures settings { self.new.parts.settings ≡ self.old.parts.settings }
        ensures standing { self.new.standing ≡ standing_after self.old.standing result }
        ensures stopped { IsStopped self.old.standing result }
        ensures still { StaysAsItIs self.old.standing self.old self.new }
        ensures silent { StaysAsItIs self.old.standing text.old text.new }
        ensures sound { IsSoundAgent self.new }
        ensures unwritten { result ≡ Err Stop.NoMemory → text.new ≡ text.old }
    {
        if let Some(stop) = self.standing.stop() {
            return Err(stop);
        }
        let mut said = Text::new(self.alloc);
        let answer = self
            .engine
            .decide(self.alloc, &mut said, &mut self.mid_line);
        let answer = tell(answer, &said, text);
        self.standing = standing_after(self.standing, &answer);
        answer
    }

    /// Runs a cycle: input, proposal, decision, application, output. True exactly where the agent is halted in the end.
    pub fn cycle(&mut self, text: &mut Text) -> Result<bool, Stop>
        requires sound { IsSoundAgent self.old }
        ensures step { self.old.standing ≡ Standing.Stands → (s : AgentOf) → Stands self.old.parts s → Goes self.old.parts.settings.watch self.old.mid_line (cycle decided_by with_learning s) self.new.parts self.new.mid_line text.old text.new result }
        ensures halted { IfOk result (λ halted. halted ≡ self.new.parts.halted) }
        ensures settings { self.new.parts.settings ≡ self.old.parts.settings }
        ensures standing { self.new.standing ≡ standing_after self.old.standing result }
        ensures stopped { IsStopped self.old.standing result }
        ensures still { StaysAsItIs self.old.standing self.old self.new }
        ensures silent { StaysAsItIs self.old.standing text.old text.new }
        ensures sound { IsSoundAgent self.new }
        ensures unwritten { result ≡ Err Stop.NoMemory → text.new ≡ text.old }
    {
        if let Some(stop) = self.standing.stop() {
            return Err(stop);
        }
        let mut said = Text::new(self.alloc);
        let answer = run_cycle(&mut self.engine, self.alloc, &mut said, &mut self.mid_line);
        let answer = tell(answer, &said, text);
        self.standing = standing_after(self.standing, &answer);
        answer
    }
}
