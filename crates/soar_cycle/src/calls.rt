// The calls by which a session works. Each changes the part of the state that it names.
ghost use Rattle.std.specs.Prelude.{◌≡◌, ◌+◌, ◌≤◌, Ok, Err, IfOk};
ghost use Rattle.defs_soar.specs.Agents.{Agent as AgentOf};
ghost use Rattle.soar_cycle.specs.Agents.{IsSoundAgent, IsStopped, StaysAsItIs, standing_after};
ghost use Rattle.cycle_phases.specs.Stands.{Stands};
ghost use Rattle.soar_sym.specs.Letters.{last_of};
ghost use Rattle.soar_sym.specs.Words.{IsKnown};
ghost use Rattle.cycle_phases.specs.Calls.{GivesFresh, IsTripleGiven, input_step, queue_step, random_step, restart_step};
ghost use Rattle.cycle_phases.specs.Stepping.{GoesStep, QuietStep};

use crate::agent::Agent;
use crate::standing::{Standing, standing_after};
use crate::telling::tell;
use cycle_phases::{Settings, Stop};
use outstanding::Outstanding;
use soar_sym::{List, Sym, Text, Triple};

impl<M: Outstanding> Agent<M> {
    /// Adds a triple to the inputs, or takes it out, settles, and appends what is told of that. Nothing is appended where
    /// memory is wanting.
    pub fn input_now(&mut self, adds: bool, triple: Triple, text: &mut Text) -> Result<(), Stop>
        requires sound { IsSoundAgent self.old }
        requires given { self.old.standing ≡ Standing.Stands → IsTripleGiven self.old.parts triple }
        ensures step { self.old.standing ≡ Standing.Stands → (s : AgentOf) → Stands self.old.parts s → GoesStep self.old.parts.settings.watch self.old.mid_line (input_step adds triple s) self.new.parts self.new.mid_line text.old text.new result }
        ensures table { self.new.parts.table ≡ self.old.parts.table }
        ensures settings { self.new.parts.settings ≡ self.old.parts.settings }
        ensures standing { self.new.standing ≡ standing_after self.old.standing result }
        ensures stopped { IsStopped self.old.standing result }
        ensures still { StaysAsItIs self.old.standing self.old self.new }
        ensures silent { StaysAsItIs self.old.standing text.old text.new }
        ensures sound { IsSoundAgent self.new }
        ensures unwritten { result ≡ Err Stop.NoMemory → text.new ≡ text.old }
    {
        if let Some(stop) = self.standing.stop() {
            return Err(stop);
        }
        let mut said = Text::new(self.alloc);
        let answer = self
            .engine
            .input_now(self.alloc, adds, triple, &mut said, &mut self.mid_line);
        let answer = tell(answer, &said, text);
        self.standing = standing_after(self.standing, &answer);
        answer
    }

    /// Queues a change of the inputs for the next input phase: the triple joins them, or leaves.
    pub fn queue(&mut self, adds: bool, triple: Triple) -> Result<(), Stop>
        requires sound { IsSoundAgent self.old }
        requires given { self.old.standing ≡ Standing.Stands → IsTripleGiven self.old.parts triple }
        ensures step { self.old.standing ≡ Standing.Stands → (s : AgentOf) → Stands self.old.parts s → QuietStep (queue_step adds triple s) self.new.parts result }
        ensures settings { self.new.parts.settings ≡ self.old.parts.settings }
        ensures standing { self.new.standing ≡ standing_after self.old.standing result }
        ensures stopped { IsStopped self.old.standing result }
        ensures still { StaysAsItIs self.old.standing self.old self.new }
        ensures sound { IsSoundAgent self.new }
        ensures mid_line { self.new.mid_line ≡ self.old.mid_line }
    {
        if let Some(stop) = self.standing.stop() {
            return Err(stop);
        }
        let answer = self.engine.queue(adds, triple);
        self.standing = standing_after(self.standing, &answer);
        answer
    }

    /// Puts random words behind those that wait for draws.
    pub fn random(&mut self, words: &List<u64>) -> Result<(), Stop>
        requires sound { IsSoundAgent self.old }
        ensures step { self.old.standing ≡ Standing.Stands → (s : AgentOf) → Stands self.old.parts s → QuietStep (random_step words.now s) self.new.parts result }
        ensures settings { self.new.parts.settings ≡ self.old.parts.settings }
        ensures standing { self.new.standing ≡ standing_after self.old.standing result }
        ensures stopped { IsStopped self.old.standing result }
        ensures still { StaysAsItIs self.old.standing self.old self.new }
        ensures sound { IsSoundAgent self.new }
        ensures mid_line { self.new.mid_line ≡ self.old.mid_line }
    {
        if let Some(stop) = self.standing.stop() {
            return Err(stop);
        }
        let answer = self.engine.random(words.as_slice());
        self.standing = standing_after(self.standing, &answer);
        answer
    }

    /// Gives a new identifier of a letter, `A` to `Z`.
    pub fn fresh(&mut self, letter: u8) -> Result<Sym, Stop>
        requires sound { IsSoundAgent self.old }
        requires low { 65 ≤ letter }
        requires high { letter ≤ 90 }
        ensures step { self.old.standing ≡ Standing.Stands → (s : AgentOf) → Stands self.old.parts s → GivesFresh letter s self.new.parts result }
        ensures symbol { self.old.standing ≡ Standing.Stands → IfOk result (λ symbol. symbol ≡ Sym.Ident letter (last_of self.old.parts.letters letter + 1)) }
        ensures known { self.old.standing ≡ Standing.Stands → IfOk result (λ symbol. IsKnown self.new.parts.table symbol) }
        ensures table { self.old.standing ≡ Standing.Stands → IfOk result (λ _. self.new.parts.table ≡ self.old.parts.table) }
        ensures settings { self.new.parts.settings ≡ self.old.parts.settings }
        ensures standing { self.new.standing ≡ standing_after self.old.standing result }
        ensures stopped { IsStopped self.old.standing result }
        ensures still { StaysAsItIs self.old.standing self.old self.new }
        ensures sound { IsSoundAgent self.new }
        ensures mid_line { self.new.mid_line ≡ self.old.mid_line }
    {
        if let Some(stop) = self.standing.stop() {
            return Err(stop);
        }
        let answer = self.engine.fresh(letter);
        self.standing = standing_after(self.standing, &answer);
        answer
    }

    /// Starts anew: all is as at the start but words, settings and all rules but justifications (Soar manual, chapter 9,
    /// init-soar).
    pub fn restart(&mut self) -> Result<(), Stop>
        requires sound { IsSoundAgent self.old }
        ensures step { self.old.standing ≡ Standing.Stands → (s : AgentOf) → Stands self.old.parts s → QuietStep (restart_step s) self.new.parts result }
        ensures table { self.new.parts.table ≡ self.old.parts.table }
        ensures settings { self.new.parts.settings ≡ self.old.parts.settings }
        ensures standing { self.new.standing ≡ standing_after self.old.standing result }
        ensures stopped { IsStopped self.old.standing result }
        ensures still { StaysAsItIs self.old.standing self.old self.new }
        ensures sound { IsSoundAgent self.new }
        ensures mid_line { self.new.mid_line ≡ self.old.mid_line }
    {
        if let Some(stop) = self.standing.stop() {
            return Err(stop);
        }
        let answer = self.engine.restart(self.alloc);
        self.standing = standing_after(self.standing, &answer);
        answer
    }

    /// Sets what a user may choose (Soar manual, chapter 9: learn, decide, max-elaborations, watch).
    pub fn set(&mut self, settings: Settings)
        requires sound { IsSoundAgent self.old }
        ensures agent { self.new ≡ record self.old { parts = record self.old.parts { settings = settings } } }
        ensures sound { IsSoundAgent self.new }
    {
        match self.standing.stop() {
            None => self.engine.set(settings),
            Some(_) => self.engine.parts.settings = settings,
        }
    }
}
