ghost use Rattle.std.specs.Prelude.{◌≡◌, [], true, IfOk, nat_lt, flat_map};
ghost use Rattle.std.specs.List.{list_all};
ghost use Rattle.defs_soar.specs.Explanation.{firing_of, maker_named};
ghost use Rattle.chunk_back.specs.Makers.{MakersAreEarlier};
ghost use Rattle.soar_record.specs.Recorded.{recorded};

use defs_match::{Instance, Rule};
use defs_soar::{Firing, How, Keeps, Used};
use record_keeping::keep_only;
use shared_values::Shared;
use soar_record::Record;
use soar_rule::{Kind, Production, Support};
use soar_sym::{List, NoMemory, Sym};
use soar_wm::Element;
use std::alloc::Global;

/// An element that is told by its tag alone.
pub const fn used(tag: u32, how: How) -> Used {
    Used {
        element: Element {
            tag,
            id: Sym::Word(1),
            attr: Sym::Word(2),
            value: Sym::Word(3),
            accept: false,
            of_state: false,
        },
        how,
    }
}

fn rule(alloc: Global) -> Result<Rule, NoMemory> {
    let production = Production {
        name: Sym::Word(24),
        doc: None,
        kind: Kind::User,
        support: Support::Unset,
        vars: List::new(alloc),
        conds: List::new(alloc),
        actions: List::new(alloc),
    };
    Rule::new(alloc, 1, production)
}

fn firing(alloc: Global, number: u64, used: &[Used]) -> Result<Firing, NoMemory>
    ensures number { IfOk result (λ f. f.number ≡ number) }
    ensures used { IfOk result (λ f. f.used ≡ used.now) }
{
    Ok(Firing {
        number,
        name: Sym::Word(24),
        rule: rule(alloc)?,
        depth: 2,
        instance: Instance {
            rule: 1,
            tags: List::new(alloc),
            binds: List::new(alloc),
        },
        goals: List::new(alloc),
        used: List::from_slice(alloc, used)?,
        made: List::new(alloc),
    })
}

/// Whether the makers that are named are earlier than a firing of a number.
fn are_earlier(used: &[Used], number: u64) -> bool
    ensures { result ≡ list_all (λ n. nat_lt n number) (flat_map maker_named used.now) }
{
    'used: for one in used {
        if let How::Made(maker) = one.how {
            if maker >= number {
                return false;
            }
        }
    }
    true
}

/// Whether no firing of a number is kept.
fn is_new(kept: &Record, number: u64) -> bool
    ensures { result ≡ true → firing_of (recorded kept.now) number ≡ [] }
{
    match kept.firing(number) {
        Some(_) => false,
        None => true,
    }
}

/// Adds a firing, where its number is new and makers are earlier.
pub fn add(alloc: Global, kept: &mut Record, number: u64, used: &[Used]) -> Result<(), NoMemory>
    requires { MakersAreEarlier (recorded kept.old) }
    ensures { MakersAreEarlier (recorded kept.new) }
{
    if !are_earlier(used, number) {
        return Ok(());
    }
    if !is_new(kept, number) {
        return Ok(());
    }
    let firing = firing(alloc, number, used)?;
    kept.add(Shared::new(alloc, firing)?)?;
    Ok(())
}

/// Firing 1 stands on a superstate's element and one of the architecture's, 2 and 3 on what 1 made, 3 on an
/// item besides, 4 on what 2 and 3 made and on a selection, and 6 on what 4 made, on that selection, and on
/// what a firing made that is not kept. Firing 5 stands apart.
pub fn kept_firings(alloc: Global) -> Result<Record, NoMemory>
    ensures { IfOk result (λ r. MakersAreEarlier (recorded r)) }
{
    let mut record = Record::new(alloc)?;
    add(
        alloc,
        &mut record,
        1,
        &[used(7, How::Upper), used(2, How::Architecture)],
    )?;
    add(
        alloc,
        &mut record,
        2,
        &[used(10, How::Made(1)), used(5, How::Upper)],
    )?;
    add(
        alloc,
        &mut record,
        3,
        &[
            used(10, How::Made(1)),
            used(3, How::Item(7)),
            used(7, How::Upper),
        ],
    )?;
    add(
        alloc,
        &mut record,
        4,
        &[
            used(11, How::Made(2)),
            used(12, How::Made(3)),
            used(6, How::Selected(5)),
        ],
    )?;
    add(alloc, &mut record, 5, &[used(1, How::Upper)])?;
    add(
        alloc,
        &mut record,
        6,
        &[
            used(13, How::Made(4)),
            used(6, How::Selected(5)),
            used(14, How::Made(0)),
        ],
    )?;
    Ok(record)
}

/// The same, of which those alone stay that these rest on.
pub fn kept_behind(alloc: Global, roots: &[u64]) -> Result<Record, NoMemory>
    ensures { IfOk result (λ r. MakersAreEarlier (recorded r)) }
{
    let mut record = kept_firings(alloc)?;
    keep_only(alloc, &mut record, roots)?;
    Ok(record)
}
