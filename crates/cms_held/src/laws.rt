// What holds of every volume that is held.
ghost use Rattle.cms_held.specs.Additions.{AddIsAnswered, AddIsCarried, AddIsSmall};
ghost use Rattle.cms_held.specs.MinidiskUpdates.{LackingIsFull, PlannedIsCarried, UpdateIsSmall};
ghost use Rattle.cms_held.specs.Growths.{FrontStays, GrowEdits, GrownHolds, GrownIsShared, GrownStarts, OwnIsFresh};
ghost use Rattle.cms_held.specs.Drafts.{DraftHasAll, DraftHolds, DraftIsPut, DraftStays};
ghost use Rattle.cms_held.specs.HeldAs.{OpenedHasHeld};
ghost use Rattle.cms_held.specs.HeldTrees.{OpenedTreesStand};
ghost use Rattle.cms_held.specs.LawsEdits.{CenturyEdits, DropEdits, EditIsAnswered, RelabelIsHeld, RenameEdits, RenewedIsChanged};
ghost use Rattle.cms_held.specs.LawsHeld.{EntriesTellLengths, OpenedHasRoom, OpenedIsHeld, PlaceIsTold};
ghost use Rattle.cms_held.specs.Puts.{DraftGoesOn, FreeIsAside, PutIsAnswered, PutIsCarried, PutIsSmall};
ghost use Rattle.cms_held.specs.LawsRenewals.{FrontKeepsHeld, UpdateRenews};
ghost use Rattle.cms_held.specs.EmptyVolumes.{EmptyIsMade, EmptyIsPlaced};
ghost use Rattle.cms_held.specs.Systems.{MapIsRead, WrittenIsRead};
ghost use Rattle.cms_held.specs.EntryPlaces.{AllAreEnough, EntriesByPlace, PlacesAreEnough};
ghost use Rattle.cms_held.specs.MapPlaces.{MapByPlace, MapIsShared};
ghost use Rattle.cms_held.specs.MapShares.{TurnedIsEnough};
ghost use Rattle.cms_held.specs.SharedBlocks.{FreshIsCounted};
ghost use Rattle.cms_held.specs.SharedNeed.{EditsHavePlaces, TakesTheNeed, WrittenIsEnough};
ghost use Rattle.cms_held.specs.SharedRenewals.{PartUpdateIsSmall, PartUpdateRenews};
ghost use Rattle.cms_held.specs.SharedSystems.{HeldHasSystems, ShareIsRead};
ghost use Rattle.cms_held.specs.SharedTrees.{LevelsAreRead, ReadStandsByLevels, SharedTreeStands};
ghost use Rattle.cms_held.specs.SharedWrites.{FreshAreWritten, WrittenIsShared};

/// What opens is held with its trees, and what is held so is the minidisk that it is, with its files and their records in their order;
/// where each block of its image has its size, its trees stand level by level, it has as many free blocks, and its files are stored so.
/// What is written for the entry of a file tells the length of its records, at V of the longest. A name is found in the place of its file.
pub fn held_laws()
    ensures trees { OpenedHasHeld }
    ensures stand { OpenedTreesStand }
    ensures held { OpenedIsHeld }
    ensures room { OpenedHasRoom }
    ensures told { EntriesTellLengths }
    ensures place { PlaceIsTold }
{}

/// An update of a volume as it is held: a crash leaves the old volume or the new one at every moment, and in the end the new one, which is
/// held as the renewed one. Where a file goes or has another name, or all stamps are moved, that is the minidisk after the change, which is made exactly where
/// the new directory and map have room.
pub fn renewal_laws()
    ensures kept { FrontKeepsHeld }
    ensures renews { UpdateRenews }
    ensures dropped { DropEdits }
    ensures renamed { RenameEdits }
    ensures moved { CenturyEdits }
    ensures changed { RenewedIsChanged }
    ensures answered { EditIsAnswered }
    ensures relabelled { RelabelIsHeld }
{}

/// The directory, the map and the label that an update writes are read again, and the map says what it said.
pub fn systems_laws()
    ensures written { WrittenIsRead }
    ensures map { MapIsRead }
{}

/// An update that was planned for a held minidisk and a change, carried out, is the change: at every moment each crash image is the old
/// minidisk or the new, up to the label's write the old is held, and in the end the new one is. Where there is no room, the change is full.
/// An update writes at most two blocks more than the change needs.
pub fn carrying_laws()
    ensures carried { PlannedIsCarried }
    ensures full { LackingIsFull }
    ensures small { UpdateIsSmall }
{}

/// An image in which a draft's data blocks and the pointer blocks over them stand holds its file: the file's tree has these blocks, and
/// its records are read from them. They stand where all that a draft writes is there, and what was written of it is there as soon as it is
/// put, part by part; what stood before stays.
pub fn draft_laws()
    ensures holds { DraftHolds }
    ensures whole { DraftHasAll }
    ensures put { DraftIsPut }
    ensures stays { DraftStays }
{}

/// A file that is put into a volume as it is held: as long as it is drafted on free blocks the volume is held as it is; it is refused
/// exactly where it passes a limit or needs more blocks than are free; and where its blocks stand, the update that was planned for it puts
/// it. All that is written for it, with its data blocks and its pointer blocks, are at most two blocks more than it needs.
pub fn put_laws()
    ensures answered { PutIsAnswered }
    ensures aside { FreeIsAside }
    ensures goes_on { DraftGoesOn }
    ensures carried { PutIsCarried }
    ensures small { PutIsSmall }
{}

/// An empty volume that is made on a wiped unit: it writes the blocks of its map and of its directory and no other, a crash leaves none or
/// the empty minidisk at every moment, and in the end the unit is settled at that, as it is held.
pub fn making_laws()
    ensures placed { EmptyIsPlaced }
    ensures made { EmptyIsMade }
{}

/// An update that writes a part of the directory and of the map, and shares their other blocks with the volume before.
///
/// - An entry of the directory is read in the 64 bytes at its place in its data block. Where a file goes, is replaced or is added, the
///   entries outside the data block of its place are those that were there; a new data block is that of the new entry.
/// - As many blocks are taken for a tree as the numbers of its data blocks tell.
/// - The bit of a block stands in one data block of the map. Where those data blocks are written in which the bits of the lowest free
///   blocks, of the blocks that are given back and of the old map's stand, no bit outside them changes.
/// - A unit that is settled at a volume has the directory and the map that are held of it. What was written of them and what was kept are
///   read together as the new directory and map.
pub fn shared_systems_laws()
    ensures entries { EntriesByPlace }
    ensures places { EditsHavePlaces }
    ensures enough { PlacesAreEnough }
    ensures all { AllAreEnough }
    ensures counted { FreshIsCounted }
    ensures bits { MapByPlace }
    ensures map { MapIsShared }
    ensures turned { TurnedIsEnough }
    ensures held { HeldHasSystems }
    ensures read { ShareIsRead }
{}

/// Trees that share blocks with those before, as they are held. What is written of such a tree are the blocks that are taken for it; where
/// that stands and the old blocks are as they were, the tree shares them. A tree that is read stands level by level, one that shares blocks
/// with it stands in the image behind the update, and what stands so is read.
pub fn shared_tree_laws()
    ensures written { FreshAreWritten }
    ensures shared { WrittenIsShared }
    ensures levels { ReadStandsByLevels }
    ensures stands { SharedTreeStands }
    ensures read { LevelsAreRead }
{}

/// An update of a volume as it is held that writes a part of its directory and of its map: a crash leaves the old volume or the new one at every moment, and in the end the new one, which is held as the renewed one, with trees that
/// stand level by level as they did. With what is written for a file it writes at most one block more than it needs, before its label.
/// The data blocks of the directory that a change writes are enough for its edit, and with these it takes for the directory what the
/// change needs.
pub fn shared_renewal_laws()
    ensures renews { PartUpdateRenews }
    ensures small { PartUpdateIsSmall }
    ensures enough { WrittenIsEnough }
    ensures needed { TakesTheNeed }
{}

/// A file that grows: its full data blocks are kept, and the pointer blocks over these alone. Where all that is written of it stands, and the
/// tree before stood level by level, its tree shares the kept blocks with that one, and the volume holds it with the records of the file
/// before and those that were put behind them. Of the blocks of that file those are given back that it doesn't keep, and what a draft writes is
/// what is taken; among the files of the volume it is the one to which the records are added.
pub fn growing_laws()
    ensures shared { GrownIsShared }
    ensures holds { GrownHolds }
    ensures own { OwnIsFresh }
    ensures edits { GrowEdits }
    ensures stays { FrontStays }
    ensures begins { GrownStarts }
{}

/// Records that are added to a file of a volume as it is held: they are refused exactly where the file passes a limit with them or needs more
/// blocks than are free; and where all that is written of the file stands, the update that was planned for them adds them. All that is
/// written for them, with the blocks of the file that aren't kept, are at most two blocks more than they need.
pub fn adding_laws()
    ensures answered { AddIsAnswered }
    ensures carried { AddIsCarried }
    ensures small { AddIsSmall }
{}
