// Orders that ask nothing of the caller.
ghost use Rattle.std.specs.Prelude.{IfOk};
ghost use Rattle.defs_run.specs.Carrying.{carried_out};
ghost use Rattle.loading_laws.specs.Orders.{IsLawfulOrder};
ghost use Rattle.command_orders.specs.Asked.{order_seen};
ghost use Rattle.command_orders.specs.Known.{IsOrderKnown};
ghost use Rattle.soar_agent.specs.Alone.{IsAlone, IsLooking};
ghost use Rattle.soar_agent.specs.Carries.{Carries};
ghost use Rattle.soar_agent.specs.Running.{run_learning};
ghost use Rattle.soar_agent.specs.States.{IsReady};

use crate::outcome::Outcome;
use crate::state::Session;
use defs_run::Order;
use outstanding::Outstanding;
use session_parts::Origin;
use soar_cycle::Stop;
use soar_sym::Text;

impl<M: Outstanding> Session<M> {
    /// Carries an order out that asks for no cycles, no file and no end.
    pub fn carry_out_alone(
        &mut self,
        origin: &Origin<'_>,
        order: Order,
        out: &mut Text,
    ) -> Result<Outcome, Stop>
        requires ready { IsReady self.old }
        requires known { IsOrderKnown self.old.agent.parts.table order }
        requires lawful { IsLawfulOrder self.old.agent.parts.table (order_seen order) }
        requires alone { IsAlone (order_seen order) }
        ensures reply { Carries self.old self.new origin.now.source.now origin.now.line (carried_out run_learning (order_seen order)) out.old out.new result }
        ensures ready { IfOk result (λ _. IsReady self.new) }
    {
        match order {
            Order::Load(production) => self.load(production),
            Order::Excise(name) => self.excise(origin, name, out),
            Order::Add(addition) => self.add(origin, addition, out),
            Order::Remove(tag) => self.remove(origin, tag, out),
            Order::Queue(adds, addition) => self.queue(origin, adds, addition, out),
            Order::Random(words) => self.put_random(&words),
            Order::InitSoar => self.restart(out.allocator()),
            Order::Watch(watch) => self.set_watch(watch),
            Order::Chunk(on) => self.set_learning(on),
            Order::LocalNegations(on) => self.set_local_negations(on),
            Order::SelectBy(mode) => self.set_mode(mode),
            Order::MaxElaborations(count) => self.set_max_elaborations(count),
            order => self.list(origin, order, out),
        }
    }

    /// Says what an order asks for that looks at the agent.
    fn list(&mut self, origin: &Origin<'_>, order: Order, out: &mut Text) -> Result<Outcome, Stop>
        requires ready { IsReady self.old }
        requires known { IsOrderKnown self.old.agent.parts.table order }
        requires looks { IsLooking (order_seen order) }
        ensures reply { Carries self.old self.new origin.now.source.now origin.now.line (carried_out run_learning (order_seen order)) out.old out.new result }
        ensures ready { IfOk result (λ _. IsReady self.new) }
    {
        match order {
            Order::Matches => self.list_matches(out),
            Order::MatchesOf(name) => self.list_matches_named(origin, name, out),
            Order::Preferences(id, attr) => self.list_slot(origin, id, attr, out),
            Order::Print(id) => self.list_elements(origin, id, out),
            Order::Show(name) => self.show_rule(origin, name, out),
            Order::PrintMemory => self.list_memory(out),
            Order::PrintRules => self.list_productions(out),
            Order::PrintChunks => self.list_learned(out),
            Order::Explain(name) => self.explain(origin, name, out),
            Order::Stats => self.list_counts(out),
            _ => unreachable!(),
        }
    }
}
