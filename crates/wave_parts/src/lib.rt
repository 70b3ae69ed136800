//! The parts of an agent: what is pending in them, what a wave leaves and tells, and what stays once all has settled.
#![tactic(auto)]

mod carrying;
mod changing;
mod counting;
mod doubting;
mod forgetting;
mod kept;
mod leaving;
mod living;
mod parts;
mod pending;
mod removing;
mod resettling;
mod restarting;
mod settings;
mod start;
mod teaching;
mod working;

pub use carrying::Done;
pub use counting::count_more;
pub use input_queue::drop_word;
pub use kept_triples::Kept;
pub use live_firings::Live;
pub use parts::Parts;
pub use pending_work::Work;
pub use removing::{at_depths, behind};
pub use row_laws::rows_fit_decisions;
pub use settings::Settings;
pub use soar_settle::{Changes, Stop};
pub use step_report::CyclePart;
pub use wave_learning::LearnedRule;
