// Refusals of commands.
ghost use Rattle.std.specs.Prelude.{◌≡◌, List as ListOf, IfOk};
ghost use Rattle.soar_sym.specs.Words.{Texts};
ghost use Rattle.defs_run.specs.Inputs.{refuses};
ghost use Rattle.defs_run.specs.Sessions.{refused_by};
ghost use Rattle.defs_soar.specs.History.{RecordedFiring};
ghost use Rattle.soar_cycle.specs.Remembers.{Remembers};
ghost use Rattle.soar_cycle.specs.Agents.{StaysAsItIs, standing_after};
ghost use Rattle.session_parts.specs.Reasons.{IsReasonKnown, refusal_by};
ghost use Rattle.soar_agent.specs.Carries.{Carries};
ghost use Rattle.soar_agent.specs.Commands.{IsToldByCaller, RefusesTold, refusal_told};
ghost use Rattle.soar_agent.specs.States.{IsReady, IsSoundSession, StaysStopped, session_of};

use crate::outcome::Outcome;
use crate::standing::standing_after;
use crate::state::Session;
use outstanding::Outstanding;
use session_parts::{Origin, Reason, say_refusal, say_stop};
use soar_cycle::{Standing, Stop};
use soar_sym::Text;

impl<M: Outstanding> Session<M> {
    /// Refuses a command, which leaves the agent as it was, with the number of the reason.
    pub fn refuse_with(
        &mut self,
        origin: &Origin<'_>,
        reason: &Reason<'_>,
        out: &mut Text,
    ) -> Result<Outcome, Stop>
        requires ready { IsReady self.old }
        requires known { IsReasonKnown self.old.agent.parts.table reason.now }
        ensures settings { self.new.agent.parts.settings ≡ self.old.agent.parts.settings }
        ensures reply { Carries self.old self.new origin.now.source.now origin.now.line (λ s. refuses (refusal_by self.old.agent.parts.table reason.now)) out.old out.new result }
        ensures ready { IfOk result (λ _. IsReady self.new) }
    {
        let mut mid_line = self.agent.mid_line();
        say_refusal(self.agent.symbols(), origin, reason, out, &mut mid_line)?;
        self.agent.set_mid_line(mid_line);
        Ok(Outcome::Refused(reason.number()))
    }

    /// Refuses what the caller alone can judge, and appends that; nothing where there is no memory. The numbers are 11 for a
    /// command without an end, 40 for a file that is not there, 41 for a file inside too many others and 42 for a file too
    /// many. The name is that of the file, which 40 alone tells.
    pub fn refuse(
        &mut self,
        number: u32,
        source: &str,
        line: u64,
        name: &str,
        text: &mut Text,
    ) -> Result<(), Stop>
        requires number { IsToldByCaller number }
        requires sound { IsSoundSession self.old }
        ensures refused { self.old.standing ≡ Standing.Stands → (history : ListOf RecordedFiring) → Remembers self.old.agent.parts history → let s = session_of self.old history in
            RefusesTold s (refused_by (refusal_told number name.now) source.now line s) self.new text.old text.new result }
        ensures settings { self.new.agent.parts.settings ≡ self.old.agent.parts.settings }
        ensures standing { self.new.standing ≡ standing_after self.old.standing result }
        ensures stopped { StaysStopped self.old.standing text.old text.new result }
        ensures still { StaysAsItIs self.old.standing self.old self.new }
        ensures sound { IsSoundSession self.new }
    {
        let standing = self.standing;
        if let Some(stop) = standing.stop() {
            return Err(stop);
        }
        let answer = self.say_refused(number, source, line, name, text);
        self.standing = standing_after(standing, &answer);
        answer
    }

    fn say_refused(
        &mut self,
        number: u32,
        source: &str,
        line: u64,
        name: &str,
        text: &mut Text,
    ) -> Result<(), Stop>
        requires number { IsToldByCaller number }
        requires ready { IsReady self.old }
        ensures refused { (history : ListOf RecordedFiring) → Remembers self.old.agent.parts history → let s = session_of self.old history in
            RefusesTold s (refused_by (refusal_told number name.now) source.now line s) self.new text.old text.new result }
        ensures settings { self.new.agent.parts.settings ≡ self.old.agent.parts.settings }
        ensures ready { IfOk result (λ _. IsReady self.new) }
    {
        let mut said = Text::new(text.allocator());
        let origin = &Origin { source, line };
        let reason = reason_told(number, name);
        match self.refuse_with(origin, &reason, &mut said) {
            Ok(_) => {
                text.push_str(said.as_str())?;
                Ok(())
            }
            // a refusal passes no limit
            Err(_) => Err(Stop::NoMemory),
        }
    }
}

/// The reason of a number that the caller tells.
fn reason_told(number: u32, name: &str) -> Reason<'_>
    requires { IsToldByCaller number }
    ensures reason { (words : Texts) → refusal_by words result ≡ refusal_told number name.now }
    ensures known { (words : Texts) → IsReasonKnown words result }
{
    match number {
        11 => Reason::Unfinished,
        40 => Reason::NoFile(name),
        41 => Reason::SourcesTooDeep,
        _ => Reason::TooManyFiles,
    }
}
