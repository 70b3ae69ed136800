// Lists of all that there is.
ghost use Rattle.std.specs.Prelude.{◌≡◌, ◌∷◌, [], IfOk};
ghost use Rattle.defs_run.specs.Listing.{chunk_lines, element_lines, rule_lines, stats_line};
ghost use Rattle.defs_run.specs.Sessions.{says};
ghost use Rattle.soar_agent.specs.Carries.{Replies};
ghost use Rattle.soar_agent.specs.Counting.{stats_seen};
ghost use Rattle.soar_agent.specs.States.{IsReady};

use crate::outcome::Outcome;
use crate::state::Session;
use list_parts::{Stats, list_chunks, list_elements, list_rules, say_stats};
use outstanding::Outstanding;
use soar_cycle::{Counts, Stop};
use soar_sym::Text;

impl<M: Outstanding> Session<M> {
    /// Says all elements.
    pub fn list_memory(&mut self, out: &mut Text) -> Result<Outcome, Stop>
        requires { IsReady self.old }
        ensures reply { Replies self.old self.new (λ s. says s (element_lines s.agent.names.words s.agent.holding.elements)) out.old out.new result }
        ensures ready { IfOk result (λ _. IsReady self.new) }
    {
        let agent = &self.agent;
        let mut mid_line = agent.mid_line();
        list_elements(agent.symbols(), agent.memory(), out, &mut mid_line)?;
        self.agent.set_mid_line(mid_line);
        Ok(Outcome::Done)
    }

    /// Says the names of all productions.
    pub fn list_productions(&mut self, out: &mut Text) -> Result<Outcome, Stop>
        requires { IsReady self.old }
        ensures reply { Replies self.old self.new (λ s. says s (rule_lines s.agent)) out.old out.new result }
        ensures ready { IfOk result (λ _. IsReady self.new) }
    {
        let agent = &self.agent;
        let mut mid_line = agent.mid_line();
        list_rules(agent.symbols(), agent.rules(), out, &mut mid_line)?;
        self.agent.set_mid_line(mid_line);
        Ok(Outcome::Done)
    }

    /// Says all learned productions.
    pub fn list_learned(&mut self, out: &mut Text) -> Result<Outcome, Stop>
        requires { IsReady self.old }
        ensures reply { Replies self.old self.new (λ s. says s (chunk_lines s.agent)) out.old out.new result }
        ensures ready { IfOk result (λ _. IsReady self.new) }
    {
        let agent = &self.agent;
        let mut mid_line = agent.mid_line();
        list_chunks(agent.symbols(), agent.rules(), out, &mut mid_line)?;
        self.agent.set_mid_line(mid_line);
        Ok(Outcome::Done)
    }

    /// Says how much was done and how much there is.
    pub fn list_counts(&mut self, out: &mut Text) -> Result<Outcome, Stop>
        requires { IsReady self.old }
        ensures reply { Replies self.old self.new (λ s. says s (stats_line s.agent ∷ [])) out.old out.new result }
        ensures ready { IfOk result (λ _. IsReady self.new) }
    {
        let stats = stats_of(self.agent.counts());
        let mut mid_line = self.agent.mid_line();
        say_stats(&stats, out, &mut mid_line)?;
        self.agent.set_mid_line(mid_line);
        Ok(Outcome::Done)
    }
}

/// The counts as they are listed.
fn stats_of(counts: Counts) -> Stats
    ensures { result ≡ stats_seen counts }
{
    Stats {
        cycles: counts.cycles,
        waves: counts.waves,
        firings: counts.firings,
        retractions: counts.retractions,
        productions: counts.productions,
        elements: counts.elements,
        preferences: counts.preferences,
        live: counts.live,
        chunks: counts.chunks,
    }
}
