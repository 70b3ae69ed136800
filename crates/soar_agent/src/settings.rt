// The settings of the agent (Soar manual, chapter 9: learn, decide, max-elaborations, watch). They hold from the next command on.
ghost use Rattle.std.specs.Prelude.{IfOk};
ghost use Rattle.defs_run.specs.Carrying.{with_settings};
ghost use Rattle.command_orders.specs.Known.{IsModeInRange};
ghost use Rattle.soar_cycle.specs.Settings.{settings_seen};
ghost use Rattle.soar_agent.specs.Carries.{RepliesNothing};
ghost use Rattle.soar_agent.specs.States.{IsReady};

use crate::outcome::Outcome;
use crate::state::Session;
use defs_soar::Mode;
use outstanding::Outstanding;
use soar_cycle::{Settings, Stop};

impl<M: Outstanding> Session<M> {
    /// Sets the watch level, from 0 to 5. Lines of the same command keep the level that was set before it.
    pub fn set_watch(&mut self, watch: u8) -> Result<Outcome, Stop>
        requires { IsReady self.old }
        ensures reply { RepliesNothing self.old self.new (λ s. with_settings s (record s.agent.settings { watch = watch })) result }
        ensures ready { IfOk result (λ _. IsReady self.new) }
    {
        let old = self.agent.settings();
        self.set(Settings {
            learning: old.learning,
            local_negations: old.local_negations,
            mode: old.mode,
            max_elaborations: old.max_elaborations,
            watch,
        })
    }

    /// Sets whether to learn.
    pub fn set_learning(&mut self, on: bool) -> Result<Outcome, Stop>
        requires { IsReady self.old }
        ensures reply { RepliesNothing self.old self.new (λ s. with_settings s (record s.agent.settings { learning = on })) result }
        ensures ready { IfOk result (λ _. IsReady self.new) }
    {
        let old = self.agent.settings();
        self.set(Settings {
            learning: on,
            local_negations: old.local_negations,
            mode: old.mode,
            max_elaborations: old.max_elaborations,
            watch: old.watch,
        })
    }

    /// Sets whether to learn from firings that found something missing in a substate.
    pub fn set_local_negations(&mut self, on: bool) -> Result<Outcome, Stop>
        requires { IsReady self.old }
        ensures reply { RepliesNothing self.old self.new (λ s. with_settings s (record s.agent.settings { local_negations = on })) result }
        ensures ready { IfOk result (λ _. IsReady self.new) }
    {
        let old = self.agent.settings();
        self.set(Settings {
            learning: old.learning,
            local_negations: on,
            mode: old.mode,
            max_elaborations: old.max_elaborations,
            watch: old.watch,
        })
    }

    /// Sets how a candidate is drawn.
    pub fn set_mode(&mut self, mode: Mode) -> Result<Outcome, Stop>
        requires ready { IsReady self.old }
        requires range { IsModeInRange mode }
        ensures reply { RepliesNothing self.old self.new (λ s. with_settings s (record s.agent.settings { mode = mode })) result }
        ensures ready { IfOk result (λ _. IsReady self.new) }
    {
        let old = self.agent.settings();
        self.set(Settings {
            learning: old.learning,
            local_negations: old.local_negations,
            mode,
            max_elaborations: old.max_elaborations,
            watch: old.watch,
        })
    }

    /// Sets how many waves a phase has at most, from 1 to 10,000.
    pub fn set_max_elaborations(&mut self, count: u32) -> Result<Outcome, Stop>
        requires { IsReady self.old }
        ensures reply { RepliesNothing self.old self.new (λ s. with_settings s (record s.agent.settings { max_elaborations = count })) result }
        ensures ready { IfOk result (λ _. IsReady self.new) }
    {
        let old = self.agent.settings();
        self.set(Settings {
            learning: old.learning,
            local_negations: old.local_negations,
            mode: old.mode,
            max_elaborations: count,
            watch: old.watch,
        })
    }

    fn set(&mut self, settings: Settings) -> Result<Outcome, Stop>
        requires { IsReady self.old }
        ensures reply { RepliesNothing self.old self.new (λ s. with_settings s (settings_seen settings)) result }
        ensures ready { IfOk result (λ _. IsReady self.new) }
    {
        self.agent.set(settings);
        Ok(Outcome::Done)
    }
}
