// Laws of the journal.
ghost use Rattle.cms_journal.specs.Laws.{LeavesContents, LeavesOnlyContents, LeavesOnlyStart, IsApart, AreBlockwise, ArePut};

/// What a crash may leave of a unit, at every journal.
///
/// - What is there may be left.
/// - After a sync with no later write to the unit nothing else is left, and nothing but the starting blocks before the first write.
/// - An event that is neither a write to the unit nor a sync of it changes nothing: neither the contents nor what may be left.
/// - Each block, by itself, is as at the last sync or as one write since then made it.
/// - A write puts its bytes in the place of its block, and of all else leaves what might have been left before.
pub fn crash_laws()
    ensures contents { LeavesContents }
    ensures synced { LeavesOnlyContents }
    ensures unwritten { LeavesOnlyStart }
    ensures apart { IsApart }
    ensures blockwise { AreBlockwise }
    ensures written { ArePut }
{}
