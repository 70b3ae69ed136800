// The elements that the firings of some numbers used.
ghost use Rattle.std.specs.Prelude.{◌≡◌, IfOk, OnOk, flat_map};
ghost use Rattle.defs_soar.specs.Explanation.{by_tag};
ghost use Rattle.defs_soar.specs.Standing.{AreFrom};
ghost use Rattle.chunk_back.specs.Parts.{elements_of, uses_at, uses_of, with_elements};

use crate::tagged::Tagged;
use defs_soar::{How, Keeps, Used};
use soar_sym::{List, NoMemory};
use soar_wm::Element;
use std::alloc::Global;

/// In which way elements were used that are told by themselves.
#[derive(Clone, Copy)]
pub(crate) enum Way {
    /// As a higher goal's.
    Upper,
    /// As a goal's own.
    Architecture,
}

/// The elements that the firings of these numbers used in a way.
pub(crate) fn elements_used<K: Keeps>(
    alloc: Global,
    kept: &K,
    numbers: &[u64],
    way: Way,
) -> Result<List<Element>, NoMemory>
    requires { AreFrom (K.kept kept.now) (K.kept kept.now) }
    ensures { IfOk result (λ elements. elements ≡ by_tag (flat_map (elements_of way) (uses_of (K.kept kept.now) numbers.now))) }
{
    let mut tagged = Tagged::new(alloc);
    'numbers: for at in (0..numbers.len()).rev() {
        add_of_number(&mut tagged, kept, numbers[at], way)?;
    }
    tagged.into_elements(alloc)
}

fn add_of_number<K: Keeps>(
    tagged: &mut Tagged,
    kept: &K,
    number: u64,
    way: Way,
) -> Result<(), NoMemory>
    requires { AreFrom (K.kept kept.now) (K.kept kept.now) }
    ensures { OnOk result (tagged.new ≡ with_elements (flat_map (elements_of way) (uses_at (K.kept kept.now) number)) tagged.old) }
{
    match kept.firing(number) {
        Some(firing) => add_used(tagged, firing.used.as_slice(), way),
        None => Ok(()),
    }
}

fn add_used(tagged: &mut Tagged, used: &[Used], way: Way) -> Result<(), NoMemory>
    ensures { OnOk result (tagged.new ≡ with_elements (flat_map (elements_of way) used.now) tagged.old) }
{
    'used: for at in (0..used.len()).rev() {
        match (way, used[at].how) {
            (Way::Upper, How::Upper) | (Way::Architecture, How::Architecture) => {
                tagged.add(used[at].element)?;
            }
            _ => {}
        }
    }
    Ok(())
}
