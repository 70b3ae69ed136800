// What an agent appends once it knows its answer.
ghost use Rattle.soar_cycle.specs.Telling.{Tells};

use cycle_phases::Stop;
use soar_sym::Text;

/// Appends what was said, unless memory is wanting.
pub fn tell<T: Copy>(answer: Result<T, Stop>, said: &Text, text: &mut Text) -> Result<T, Stop>
    ensures { Tells answer said.now text.old text.new result }
{
    match answer {
        Err(Stop::NoMemory) => Err(Stop::NoMemory),
        told => match text.push_str(said.as_str()) {
            Ok(()) => told,
            Err(_) => Err(Stop::NoMemory),
        },
    }
}
