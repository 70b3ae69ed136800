ghost use Rattle.std.specs.Prelude.{◌≡◌, ◌++◌, OnOk};
ghost use Rattle.soar_record.specs.Recorded.{recorded as kept_in};
ghost use Rattle.dependency_tables.specs.Tables.{all_tags, each_with_tags};
ghost use Rattle.goal_dependence.specs.Remembered.{firings_of, CanJoin};

use crate::joining::join;
use dependency_tables::Dependencies;
use firing_records::Recorded;
use soar_record::Record;
use soar_sym::{List, NoMemory};

/// The firings of a wave join those before it, and the tags that were found for the goals join those on which the goals
/// depend that are left (Soar manual, chapter 2, goal dependency sets).
///
/// Each goal has its table of tags, each of them once, so that a wave looks at its own firings alone. The tags were found
/// before all was settled, so their elements may be gone: `doubted` gets them too.
pub fn remember(
    depends: &mut Dependencies,
    doubted: &mut List<u32>,
    kept: &mut Record,
    recorded: List<Recorded>,
    tags: &List<List<u32>>,
) -> Result<(), NoMemory>
    requires new { CanJoin (kept_in kept.old) (firings_of recorded) }
    ensures kept { OnOk result (kept_in kept.new ≡ kept_in kept.old ++ firings_of recorded) }
    ensures depends { OnOk result (depends.new ≡ each_with_tags depends.old tags.now) }
    ensures doubted { OnOk result (doubted.new ≡ doubted.old ++ all_tags tags.now) }
{
    join(kept, recorded)?;
    depends.add(tags.as_slice())?;
    doubt(doubted, tags.as_slice())
}

/// Adds all tags to those that may be of elements that are gone.
fn doubt(doubted: &mut List<u32>, tags: &[List<u32>]) -> Result<(), NoMemory>
    ensures { OnOk result (doubted.new ≡ doubted.old ++ all_tags tags.now) }
{
    'tags: for more in tags {
        doubted.extend_from_slice(more.as_slice())?;
    }
    Ok(())
}
