// What follows from the definitions of volumes.
ghost use Rattle.cms_model.specs.Built.{BuiltIsRead};
ghost use Rattle.cms_model.specs.ByLevels.{ReadIsHeaped};
ghost use Rattle.cms_model.specs.LawsCenturies.{CenturyIsWhole, MovedIsLate, MovedIsStamp};
ghost use Rattle.cms_model.specs.LawsChanges.{NamesAreTold, NamesStayDistinct, NoneIsAdded, OpenedAreDistinct, PlaceIsChanged, PlaceIsFound};
ghost use Rattle.cms_model.specs.LawsLookup.{ChangedIsFound, OthersStay, RestIsLeft};
ghost use Rattle.cms_model.specs.LawsRecords.{FixedAreCut, StandsForOne, StoredHasSize, ValidHasRecords, VaryingAreRead};
ghost use Rattle.cms_model.specs.LawsRoom.{ChangedWhereMade, DirectoryIsNeeded, FullWhereLacking, LimitedWherePassing, NeedIsTaken, PlaceIsNamed, RoomIsKept};
ghost use Rattle.cms_model.specs.LawsSizes.{BlocksAreShared};
ghost use Rattle.cms_model.specs.LawsTrees.{FirstIsFixed, LeavesAreBlocks, OnlyItsPointers, PointersAreRead, ShapeIsLeast, TreeHasSize, TreeIsWithin, TreeRestsOnItsBlocks};
ghost use Rattle.cms_model.specs.LawsUpdates.{AfterIsTold, ApartIsKept, AsideIsAsBefore, FrontsOfUpdate, KeepsOld, KeepsWiped, MakeIsWhole, RelabelIsWhole, SettledIsFirm, SyncSettles, UntouchedStarts, UpdateIsAside, UpdateIsPut, UpdateIsWhole, WipeIsWhole, WipedIsNone};
ghost use Rattle.cms_model.specs.LawsVolumes.{DiskIsLookedAt, NoLabelIsNone, OpenedIsInOrder, OpensWhereHeld, RestsOnFrame, StateIsMinidisk};
ghost use Rattle.cms_model.specs.SharedTiers.{SharedStands};
ghost use Rattle.cms_model.specs.SharedTimes.{CameIsFresh, LeavesTimes, SharedTimes};
ghost use Rattle.cms_model.specs.SharedTrees.{AllIsWhole, BehindIsWritten, SizeIsExchanged, TakesItsSize, TakesNoMore};
ghost use Rattle.cms_model.specs.Stands.{OpenedIsMinidisk, OpenedStands, RenewedStands, StandsOpens};

/// Records and the bytes that hold them: what is joined is cut again, and a valid file has at least one.
pub fn record_laws()
    ensures fixed { FixedAreCut }
    ensures varying { VaryingAreRead }
    ensures size { StoredHasSize }
    ensures one { StandsForOne }
    ensures some { ValidHasRecords }
{}

/// Trees of blocks: their levels, their blocks and what they rest on.
pub fn tree_laws()
    ensures shape { ShapeIsLeast }
    ensures size { TreeHasSize }
    ensures within { TreeIsWithin }
    ensures leaves { LeavesAreBlocks }
    ensures first { FirstIsFixed }
    ensures frame { TreeRestsOnItsBlocks }
    ensures built { BuiltIsRead }
    ensures pointers { OnlyItsPointers }
    ensures read { PointersAreRead }
{}

/// Trees that share blocks with the tree before.
///
/// - Where all data blocks are written nothing is kept, and a tree has no more blocks than it had and those that are written anew.
/// - A tree that is read stands level by level, and one that keeps blocks of it stands with their bytes.
/// - It has the blocks of the tree before, without those that it leaves out and with those that it takes: no more than its size.
pub fn sharing_laws()
    ensures whole { AllIsWhole }
    ensures room { TakesNoMore }
    ensures exchanged { SizeIsExchanged }
    ensures few { TakesItsSize }
    ensures behind { BehindIsWritten }
    ensures read { ReadIsHeaped }
    ensures stands { SharedStands }
    ensures times { SharedTimes }
    ensures leaves { LeavesTimes }
    ensures came { CameIsFresh }
{}

/// The volume in an image: the order of tests, what it rests on, its state and where its blocks lie, and how much of a unit is looked at.
pub fn volume_laws()
    ensures opens { OpensWhereHeld }
    ensures frame { RestsOnFrame }
    ensures state { StateIsMinidisk }
    ensures no_label { NoLabelIsNone }
    ensures order { OpenedIsInOrder }
    ensures disk { DiskIsLookedAt }
{}

/// An open volume file by file: what stands opens, what opens stands, and what an update exchanges for it stands.
pub fn standing_laws()
    ensures opens { StandsOpens }
    ensures stands { OpenedStands }
    ensures minidisk { OpenedIsMinidisk }
    ensures renewed { RenewedStands }
{}

/// Sizes: the blocks of a minidisk are in use, free or lost, and the free ones are those that its map doesn't mark.
pub fn size_laws()
    ensures shared { BlocksAreShared }
{}

/// Changes of a list of files: all is done in the place of the name, and names stay distinct.
pub fn change_laws()
    ensures names { NamesAreTold }
    ensures found { PlaceIsFound }
    ensures place { PlaceIsChanged }
    ensures none { NoneIsAdded }
    ensures distinct { NamesStayDistinct }
    ensures opened { OpenedAreDistinct }
{}

/// What is found by a name after a change.
///
/// - The name that was changed has the file that was put, added to or renamed, or none.
/// - Each other name has the file that it had.
/// - All else of the minidisk is as before, but for the volume id at a relabelling.
pub fn lookup_laws()
    ensures found { ChangedIsFound }
    ensures others { OthersStay }
    ensures rest { RestIsLeft }
{}

/// The room that a change needs.
///
/// - What it needs is what it takes: the blocks in use after it are those before, and these, without those that it gives back.
/// - For the directory it is counted by the data blocks in which the entries stand that it makes anew, and is never more than for a whole
///   directory.
/// - It is made exactly where it passes no limit and there is room, and full exactly where it passes none and there isn't.
/// - A limit is told exactly where it is the first that the change passes.
/// - A minidisk that has room for what it holds has it after each change that is made.
pub fn room_laws()
    ensures named { PlaceIsNamed }
    ensures needed { DirectoryIsNeeded }
    ensures need { NeedIsTaken }
    ensures made { ChangedWhereMade }
    ensures full { FullWhereLacking }
    ensures limited { LimitedWherePassing }
    ensures room { RoomIsKept }
{}

/// Stamps that are moved by a century.
///
/// - What is moved is a stamp again, and stays when stamps are moved again.
/// - All data blocks of the directory are written, and it needs as many free blocks as a whole one.
pub fn century_laws()
    ensures stamps { MovedIsStamp }
    ensures late { MovedIsLate }
    ensures whole { CenturyIsWhole }
{}

/// What a crash may leave of a unit that is settled, synced, untouched or left alone.
///
/// - A settled unit opens as its volume in every crash image.
/// - A unit to which nothing happened has the state of its starting blocks.
/// - After a sync a crash leaves the contents, and nothing else.
/// - Events that are neither writes to a unit nor syncs of it change nothing for it, and those of an update are of its unit alone.
pub fn crash_state_laws()
    ensures told { AfterIsTold }
    ensures settled { SettledIsFirm }
    ensures untouched { UntouchedStarts }
    ensures synced { SyncSettles }
    ensures aside { AsideIsAsBefore }
    ensures update_aside { UpdateIsAside }
{}

/// An update is whole or absent: so are a relabelling, a wiping and a making.
///
/// - After its events the contents are the old image with its writes put in.
/// - Before the write of its label a unit is settled at the old volume, or wiped.
/// - From that write on its contents are the new volume, and a crash leaves the old state or the new.
/// - After the sync behind it the unit is settled at the new volume.
pub fn update_laws()
    ensures fronts { FrontsOfUpdate }
    ensures put { UpdateIsPut }
    ensures kept { ApartIsKept }
    ensures old { KeepsOld }
    ensures update { UpdateIsWhole }
    ensures relabel { RelabelIsWhole }
    ensures wiped { WipedIsNone }
    ensures wipe { WipeIsWhole }
    ensures still_wiped { KeepsWiped }
    ensures make { MakeIsWhole }
{}
