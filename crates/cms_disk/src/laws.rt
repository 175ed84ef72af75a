// What holds of every accessed volume.
ghost use Rattle.cms_disk.specs.LawsDisks.{LookedAtIsCovered, QuietRests, StandsTells, SyncQuiets};

/// An accessed volume tells the files of the minidisk that it is. A unit is quiet after a sync; a quiet unit is settled at the volume that
/// it holds, or is none for one reason. Where a machine looks at a unit as a disk does, what is covered as the disk reads the unit is
/// covered for the machine.
pub fn disk_laws()
    ensures tells { StandsTells }
    ensures rests { QuietRests }
    ensures synced { SyncQuiets }
    ensures covered { LookedAtIsCovered }
{}
