// The units of a session are attached.
ghost use Rattle.std.specs.Prelude.{◌≡◌, ◌≤◌, [], min, IfOk, IfErr, OnErr, Some, None};
ghost use Rattle.std.specs.Option.{ForSome};
ghost use Rattle.cms_journal.specs.Causes.{Rose};
ghost use Rattle.cms_journal.specs.Journal.{IsBlockSize, MayAdd, may_write};
ghost use Rattle.cms_journal.specs.Limits.{most_blocks};
ghost use Rattle.cms_journal.specs.declared.event.Event.TheVariants.{Missed};
ghost use Rattle.cms_search.specs.Calls.{Usable, IsUsableUnit};
ghost use Rattle.cms_search.specs.Tables.{HaveDistinctDevices, new_table};
ghost use Rattle.cms_search.specs.declared.state.End.TheVariants.{Edge};
ghost use Rattle.cms_session.specs.Headline.{fresh};
ghost use Rattle.cms_session.specs.Sessions.{AttachesAll, AttachesUnit, HasFew, HasRoom, HaveSizes, StopsAfter, status_at};
ghost use Rattle.cms_session.specs.Words.{AreUnits};
ghost use Rattle.cms_world.specs.Seen.{seen};

use cms_disk::UnitInfo;
use cms_journal::MOST_BLOCKS;
use cms_search::{End, UnitList};
use cms_words::UnitWord;
use cms_world::{Access, Failed, Unit, World};
use std::alloc::Global;

// What a session looks at of a unit.
fn looked_at(unit: Unit) -> Unit
    ensures number { result.number ≡ unit.number }
    ensures blocks { result.blocks ≡ min unit.blocks most_blocks }
{
    Unit {
        number: unit.number,
        blocks: unit.blocks.min(MOST_BLOCKS),
    }
}

// A unit that is attached so may be written.
fn may_write(access: Access) -> bool
    ensures { result ≡ may_write access }
{
    match access {
        Access::ReadOnly => false,
        Access::ReadWrite | Access::New(_) => true,
    }
}

// Attaches the unit of a word.
fn attach_unit<W: World>(world: &mut W, word: &UnitWord) -> Result<UnitInfo, End>
    requires room { HasFew 255 (W.told world.old) }
    ensures attached { IfOk result (AttachesUnit (W.told world.old) (W.told world.new) word.now) }
    ensures usable { IfOk result (λ info. ForSome (W.told world.new) (λ j. IsUsableUnit j info)) }
    ensures device { IfOk result (λ info. info.vdev ≡ word.now.vdev) }
    ensures size { IfOk result (λ info. IsBlockSize info.bsize) }
    ensures silent { W.told world.old ≡ None → W.told world.new ≡ None }
    ensures missed { OnErr result (MayAdd (Missed word.now.name word.now.bsize word.now.access)
        (W.told world.old) (W.told world.new)) }
    ensures cause { IfErr result (λ e. (e ≡ Edge) × Rose (W.edges world.old) (W.edges world.new)) }
    ensures edges { W.edges world.old ≤ W.edges world.new }
    ensures faults { W.faults world.new ≡ W.faults world.old }
{
    match world.attach(word.name.text(), word.bsize.bytes(), word.access) {
        Ok(unit) => Ok(UnitInfo {
            vdev: word.vdev,
            unit: looked_at(unit),
            bsize: word.bsize,
            writable: may_write(word.access),
        }),
        Err(Failed) => Err(End::Edge),
    }
}

/// Attaches the units of words, in their order.
pub fn attach_all<W: World>(
    alloc: Global,
    world: &mut W,
    words: &[UnitWord],
) -> Result<UnitList, End>
    requires units { AreUnits words.now }
    requires room { HasRoom (W.told world.old) }
    ensures attached { IfOk result (λ infos. W.told world.old ≡ Some (fresh [])
        → AttachesAll (W.told world.new) words.now infos) }
    ensures usable { IfOk result (λ infos. Usable (W.told world.new) (new_table infos)) }
    ensures distinct { IfOk result HaveDistinctDevices }
    ensures sizes { IfOk result HaveSizes }
    ensures stops { IfErr result (λ e. W.told world.old ≡ Some (fresh [])
        → StopsAfter words.now (seen W.World world.old) (seen W.World world.new) (status_at e)) }
    ensures cause { IfErr result (λ e. e ≡ Edge → Rose (W.edges world.old) (W.edges world.new)) }
    ensures edges { W.edges world.old ≤ W.edges world.new }
    ensures faults { W.faults world.new ≡ W.faults world.old }
{
    let mut units = UnitList::new(alloc);
    for word in words {
        let unit = attach_unit(world, word)?;
        units.push(unit)?;
    }
    Ok(units)
}
