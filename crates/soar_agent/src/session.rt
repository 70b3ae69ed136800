ghost use Rattle.std.specs.Prelude.{◌≡◌, ◌≤◌, ◌^◌, [], false, List as ListOf, IfOk, length};
ghost use Rattle.defs_soar.specs.History.{RecordedFiring};
ghost use Rattle.defs_run.specs.Whole.{whole_stage};
ghost use Rattle.defs_run.specs.WholeReading.{read_whole};
ghost use Rattle.defs_run.specs.Runs.{obeyed};
ghost use Rattle.defs_run.specs.Sessions.{first_session};
ghost use Rattle.loading_laws.specs.Orders.{IsLawfulOrder};
ghost use Rattle.command_orders.specs.Asked.{order_seen};
ghost use Rattle.command_orders.specs.Known.{IsOrderKnown};
ghost use Rattle.soar_cycle.specs.Remembers.{Remembers};
ghost use Rattle.soar_cycle.specs.Agents.{StaysAsItIs, standing_after};
ghost use Rattle.soar_agent.specs.Carries.{CarriesOut};
ghost use Rattle.soar_agent.specs.Commands.{Commands, Outcomes};
ghost use Rattle.soar_agent.specs.Outcomes.{HasOutcome};
ghost use Rattle.soar_agent.specs.States.{IsReady, IsSoundSession, StaysStopped, session_of};

use crate::outcome::Outcome;
use crate::standing::standing_after;
use crate::state::Session;
use command_labels::Labels;
use defs_run::Order;
use defs_soar::Which;
use loading_laws::what_is_read_may_be_loaded;
use outstanding::Outstanding;
use session_parts::{CmdFault, Origin, Reason, read_command, say_stop};
use soar_cycle::{Agent, Standing, Stop};
use soar_edge::Command;
use soar_sym::{NoMemory, Text};
use std::alloc::Global;

impl<M: Outstanding + Drop> Session<M> {
    /// The top state with its input and output links, and no rule, at a watch level from 0 to 5.
    pub fn new(alloc: Global, matcher: M, watch: u8) -> Result<Session<M>, NoMemory>
        requires works { M.failed matcher ≡ false }
        requires rules { M.rules matcher ≡ [] }
        requires elements { M.elements matcher ≡ [] }
        ensures stands { IfOk result (λ s. session_of s [] ≡ first_session watch) }
        ensures remembers { IfOk result (λ s. Remembers s.agent.parts []) }
        ensures standing { IfOk result (λ s. s.standing ≡ Standing.Stands) }
        ensures sound { IfOk result (λ s. IsSoundSession s) }
    {
        Ok(Session {
            agent: Agent::new(alloc, matcher, watch)?,
            labels: Labels::new(alloc),
            standing: Standing::Stands,
        })
    }
}

impl<M: Outstanding> Session<M> {
    /// Carries a command of a source out, all but the cycles that it asks for, appends what it says, and returns the
    /// outcome. At a limit it appends what comes before, and the line of the limit; out of memory, nothing.
    pub fn command(&mut self, c: &Command, source: &str, text: &mut Text) -> Result<Outcome, Stop>
        requires short { length c.now.text ≤ 2 ^ 26 }
        requires sound { IsSoundSession self.old }
        ensures command { self.old.standing ≡ Standing.Stands → (history : ListOf RecordedFiring) → Remembers self.old.agent.parts history → let s = session_of self.old history in
            Commands s (obeyed whole_stage source.now c.now.line c.now.text s) self.new text.old text.new result }
        ensures outcome { self.old.standing ≡ Standing.Stands → (history : ListOf RecordedFiring) → Remembers self.old.agent.parts history → let s = session_of self.old history in
            HasOutcome s (read_whole s.agent.names.words c.now.text) result }
        ensures standing { self.new.standing ≡ standing_after self.old.standing result }
        ensures stopped { StaysStopped self.old.standing text.old text.new result }
        ensures still { StaysAsItIs self.old.standing self.old self.new }
        ensures sound { IsSoundSession self.new }
    {
        let standing = self.standing;
        if let Some(stop) = standing.stop() {
            return Err(stop);
        }
        let answer = self.answer(c, source, text);
        self.standing = standing_after(standing, &answer);
        answer
    }

    fn answer(&mut self, c: &Command, source: &str, text: &mut Text) -> Result<Outcome, Stop>
        requires short { length c.now.text ≤ 2 ^ 26 }
        requires ready { IsReady self.old }
        ensures command { (history : ListOf RecordedFiring) → Remembers self.old.agent.parts history → let s = session_of self.old history in
            Commands s (obeyed whole_stage source.now c.now.line c.now.text s) self.new text.old text.new result }
        ensures outcome { (history : ListOf RecordedFiring) → Remembers self.old.agent.parts history → let s = session_of self.old history in
            HasOutcome s (read_whole s.agent.names.words c.now.text) result }
        ensures ready { IfOk result (λ _. IsReady self.new) }
    {
        let mut said = Text::new(text.allocator());
        match self.obey(c, source, &mut said) {
            Ok(outcome) => {
                text.push_str(said.as_str())?;
                Ok(outcome)
            }
            Err(stop) => Err(say_stop(stop, self.agent.mid_line(), &mut said, text)),
        }
    }

    /// Carries a command out.
    fn obey(&mut self, c: &Command, source: &str, out: &mut Text) -> Result<Outcome, Stop>
        requires short { length c.now.text ≤ 2 ^ 26 }
        requires ready { IsReady self.old }
        ensures command { (history : ListOf RecordedFiring) → Remembers self.old.agent.parts history → let s = session_of self.old history in
            Outcomes self.old.agent.parts.settings.watch self.old.agent.mid_line (obeyed whole_stage source.now c.now.line c.now.text s) self.new out.old out.new result }
        ensures outcome { (history : ListOf RecordedFiring) → Remembers self.old.agent.parts history → let s = session_of self.old history in
            HasOutcome s (read_whole s.agent.names.words c.now.text) result }
        ensures ready { IfOk result (λ _. IsReady self.new) }
    {
        let origin = &Origin {
            source,
            line: c.line,
        };
        what_is_read_may_be_loaded();
        match read_command(out.allocator(), self.agent.table(), c) {
            Ok(order) => {
                let _within = self.agent.symbols().word_count();
                self.carry_out(origin, order, out)
            }
            Err(CmdFault::Refused { number, shown }) => {
                let _within = self.agent.symbols().word_count();
                self.refuse_with(origin, &Reason::Read(number, shown), out)
            }
            Err(CmdFault::WordsSpent) => Err(Stop::Limit(Which::Words)),
            Err(CmdFault::NoMemory) => Err(Stop::NoMemory),
        }
    }

    /// Carries an order out, all but what the caller does.
    fn carry_out(
        &mut self,
        origin: &Origin<'_>,
        order: Order,
        out: &mut Text,
    ) -> Result<Outcome, Stop>
        requires ready { IsReady self.old }
        requires known { IsOrderKnown self.old.agent.parts.table order }
        requires lawful { IsLawfulOrder self.old.agent.parts.table (order_seen order) }
        ensures command { CarriesOut self.old self.new origin.now.source.now origin.now.line (order_seen order) out.old out.new result }
        ensures ready { IfOk result (λ _. IsReady self.new) }
    {
        match order {
            Order::Run(count) => self.ask_to_run(origin, count, out),
            Order::Source(name) => Ok(Outcome::Source(name)),
            Order::Quit => Ok(Outcome::Quit),
            order => self.carry_out_alone(origin, order, out),
        }
    }
}
