// Laws of beats and of runs.
ghost use Rattle.cms_model.specs.Items.{ToldAreSure, WholeByLines};
ghost use Rattle.cms_model.specs.LawsRuns.{CrashesWithin, WithinIsAt, KeepSound, AddUp, RunsJoin, StopsJoin, LeadsWithin, FeedsBeats, StopsFollow, RunsCome, ReadsAreWanted, DoubtEndsNow, SettledIsNow, DoubtIsOfBoth};
ghost use Rattle.cms_model.specs.LawsObjects.{AskedAnswers, AskedNoMore, DroppedIsGone, NoneAreAsked, RunsBeside, StayDistinct, StopsBeside};
ghost use Rattle.cms_model.specs.LawsSteps.{SyncsAreCounted, RefusedIsNothing, KeptWithoutSync, AccessEndsDoubt, DoubtHasBoth, FaultsAreCounted, FaultsFitSteps};

/// The items of a console.
///
/// - What is told by a part of a script is exactly what every script that begins so has at that place.
/// - The items of a whole script are those of its lines.
pub fn laws_of_items()
    ensures told { ToldAreSure }
    ensures whole { WholeByLines }
{}

/// The law of beats: what a crash leaves at any moment of a run, where each beat's piece of the journal is covered.
///
/// - At every moment it leaves each unit in a state that the trace has there, after the bytes typed and the turns spent by then.
/// - So it does by the bytes typed alone.
/// - Behind the last beat a crash leaves each unit in a state of its set, and its contents have the state of its slot.
/// - The beats' pieces, faults, sets, bytes and turns add up to those of the whole.
pub fn law_of_beats()
    ensures within { CrashesWithin }
    ensures at { WithinIsAt }
    ensures sound { KeepSound }
    ensures sums { AddUp }
{}

/// How runs are joined: a call's run stands within its caller's, to its end or cut off.
pub fn laws_of_joining<A, R>()
    ensures runs { RunsJoin A R }
    ensures stops { StopsJoin A R }
    ensures leads { LeadsWithin A R }
{}

/// A run is one of the machine on what was told.
///
/// - The machine on what beats took shows their trace.
/// - On all that was told in a run that was cut off, its bytes begin with those typed, a crash at any moment leaves a state that
///   its trace has there, and wherever the script was read it waits for the script. Where it was cut off a crash leaves each unit
///   as the machine knows it then.
/// - On all that was told in a run to its end it comes to the same result, with the same bytes, turns and sets.
pub fn laws_of_runs<R>()
    ensures feeds { FeedsBeats R }
    ensures stops { StopsFollow R }
    ensures ends { RunsCome R }
{}

/// What is known of a unit.
///
/// - A read fails after no more records than were wanted.
/// - An access that ends a doubt settles the unit at the state that its contents have.
/// - Of a settled unit that is the one state that a crash may leave, and of one in doubt it is one of the two.
pub fn laws_of_units()
    ensures wanted { ReadsAreWanted }
    ensures ended { DoubtEndsNow }
    ensures settled { SettledIsNow }
    ensures doubt { DoubtIsOfBoth }
{}

/// Device steps: what is said of their outcomes fits the events of an update and what a crash leaves of them.
///
/// - An outcome tells the syncs of its events.
/// - A change that is refused writes nothing, changes nothing and has no fault of an update.
/// - Where nothing was synced by an access or an update, the machine knows of the unit what it knew.
/// - An access ends a doubt with the state that the unit's contents have.
/// - A unit in doubt has the old state and the new in its set.
/// - Each outcome but a good one counts as a fault.
/// - A read fails in an access, a reading and an addition of records alone, a sync that ends a doubt only in an access of a unit in
///   doubt. A fault leaves the unit as before only where new blocks are written before the label, so of no relabelling and no
///   wiping, and in doubt only where the label is written.
pub fn laws_of_steps()
    ensures syncs { SyncsAreCounted }
    ensures refused { RefusedIsNothing }
    ensures kept { KeptWithoutSync }
    ensures ended { AccessEndsDoubt }
    ensures doubt { DoubtHasBoth }
    ensures faults { FaultsAreCounted }
    ensures fit { FaultsFitSteps }
{}

/// Objects.
///
/// - One that is asked stands in its place, its test holds of what comes back, and that it holds from then on.
/// - Words that differ go on to differ, and behind the dropping of an object none stands under its word.
/// - Where none stands under a word none is asked under it any more, and none comes to stand under it.
/// - Where there are none, nothing comes back, and none come.
/// - A run where there are none is one beside any, which it leaves as they are, also where it was cut off.
pub fn laws_of_objects<R>()
    ensures asked { AskedAnswers }
    ensures distinct { StayDistinct }
    ensures dropped { DroppedIsGone }
    ensures gone { AskedNoMore }
    ensures none { NoneAreAsked }
    ensures runs { RunsBeside R }
    ensures stops { StopsBeside R }
{}
