// What a matcher is told of a step.
ghost use Rattle.std.specs.Prelude.{◌≡◌, false, OnOk, List as ListOf};
ghost use Rattle.defs_soar.specs.Start.{first_elements};
ghost use Rattle.live_firings.specs.declared.live.Live.{Live as LiveOf};
ghost use Rattle.matching_laws.specs.Telling.{AreInsertable, AreRemovable, with_each};
ghost use Rattle.soar_settle.specs.Tagging.{without_each};

use crate::taking::take_in;
use decision_parts::Changes;
use outstanding::Outstanding;
use soar_sym::NoMemory;
use soar_wm::Element;

/// Tells a matcher what a step changed: it lets go of what went, then takes in what came.
pub fn tell<M: Outstanding>(matcher: &mut M, changes: &Changes) -> Result<(), NoMemory>
    requires works { M.failed matcher.old ≡ false }
    requires removable { AreRemovable (M.elements matcher.old) changes.now.gone }
    requires insertable { AreInsertable (without_each (M.elements matcher.old) changes.now.gone) changes.now.new }
    ensures works { OnOk result (M.failed matcher.new ≡ false) }
    ensures rules { OnOk result (M.rules matcher.new ≡ M.rules matcher.old) }
    ensures elements { OnOk result (M.elements matcher.new ≡ with_each (without_each (M.elements matcher.old) changes.now.gone) changes.now.new) }
    ensures knows { OnOk result ((live : ListOf LiveOf) → M.knows matcher.old live → M.knows matcher.new live) }
{
    let_go(matcher, changes.gone.as_slice())?;
    take_in(matcher, changes.new.as_slice())
}

/// Tells a matcher that all starts anew: it lets go of its elements, then takes in those of the start.
pub fn tell_anew<M: Outstanding>(
    matcher: &mut M,
    gone: &[Element],
    first: &[Element],
) -> Result<(), NoMemory>
    requires works { M.failed matcher.old ≡ false }
    requires held { M.elements matcher.old ≡ gone.now }
    requires first { first.now ≡ first_elements }
    ensures works { OnOk result (M.failed matcher.new ≡ false) }
    ensures rules { OnOk result (M.rules matcher.new ≡ M.rules matcher.old) }
    ensures elements { OnOk result (M.elements matcher.new ≡ first.now) }
    ensures knows { OnOk result ((live : ListOf LiveOf) → M.knows matcher.old live → M.knows matcher.new live) }
{
    let_go(matcher, gone)?;
    take_in(matcher, first)?;
    Ok(())
}

/// Lets go of elements, the last of them first: where all are kept in order of tag, those behind one that goes are few.
fn let_go<M: Outstanding>(matcher: &mut M, gone: &[Element]) -> Result<(), NoMemory>
    requires works { M.failed matcher.old ≡ false }
    requires removable { AreRemovable (M.elements matcher.old) gone.now }
    ensures works { OnOk result (M.failed matcher.new ≡ false) }
    ensures rules { OnOk result (M.rules matcher.new ≡ M.rules matcher.old) }
    ensures elements { OnOk result (M.elements matcher.new ≡ without_each (M.elements matcher.old) gone.now) }
    ensures knows { OnOk result ((live : ListOf LiveOf) → M.knows matcher.old live → M.knows matcher.new live) }
{
    let mut rest = gone;
    'gone: while let Some((last, front)) = rest.split_last() {
        matcher.element_goes(last.tag)?;
        rest = front;
    }
    Ok(())
}
