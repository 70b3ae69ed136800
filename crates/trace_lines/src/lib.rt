//! The lines of the trace that a run shows at watch level 1, and the name of a selected operator.
#![tactic(auto)]

mod halting;
mod impasse;
mod line;
mod name;
mod output;
mod selection;
mod texts;

pub use halting::{Phase, say_cut, say_halt};
pub use impasse::{NewGoal, say_goal_limit, say_substate};
pub use name::operator_name;
pub use output::{say_output, say_outputs};
pub use selection::{Selected, say_selection};
pub use soar_show::{push_tags, show_element, show_symbol, symbol_text};
