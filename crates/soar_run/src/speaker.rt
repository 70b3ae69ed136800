// A session that carries commands out and writes what they say.
ghost use Rattle.std.specs.Prelude.{IfOk};
ghost use Rattle.defs_run.specs.Sessions.{first_session};
ghost use Rattle.soar_run.specs.Ready.{IsReadySession};
ghost use Rattle.soar_run.specs.Spoken.{StandsFor};

use crate::step::{answer_command, refuse_told};
use command_runs::{Answered, Carrier, Unread};
use outstanding::{Followed, Outstanding};
use rete_net::Net;
use soar_agent::Session;
use soar_edge::{Command, PutFault, Sink};
use soar_sym::NoMemory;
use std::alloc::Global;

/// What carries the commands of a run out.
#[derive(Drop)]
pub struct Speaker<M: Outstanding> {
    pub session: Session<M>,
}

impl<M: Outstanding> Carrier for Speaker<M> {
    ghost use Rattle.soar_run.specs.Ready.{IsReadySession};
    ghost use Rattle.soar_run.specs.Spoken.{StandsFor};

    ghost stands = { λ speaker s. StandsFor speaker.session s };

    ghost ready = { λ speaker. IsReadySession speaker.session };

    fn answer<O: Sink>(
        &mut self,
        alloc: Global,
        command: &Command,
        source: &str,
        out: &mut O,
    ) -> Result<Answered, PutFault> {
        answer_command(alloc, &mut self.session, command, source, out)
    }

    fn refuse<O: Sink>(
        &mut self,
        alloc: Global,
        why: Unread,
        name: &str,
        source: &str,
        line: u64,
        out: &mut O,
    ) -> Result<(), PutFault> {
        refuse_told(alloc, &mut self.session, why, name, source, line, out)
    }
}

/// The session before the first command, at a watch level from 0 to 5.
pub fn first_speaker(alloc: Global, watch: u8) -> Result<Speaker<Followed<Net>>, NoMemory>
    ensures stands { IfOk result (λ speaker. StandsFor speaker.session (first_session watch)) }
    ensures ready { IfOk result (λ speaker. IsReadySession speaker.session) }
{
    let net = Net::new(alloc)?;
    let matcher = Followed::new(alloc, net);
    let session = Session::new(alloc, matcher, watch)?;
    Ok(Speaker { session })
}
