// Laws of sessions.
ghost use Rattle.cms_session.specs.Laws.{AskedIsItself, Completes, DroppedIsLost, EndsLikeMachine, FaultsAreCounted, SettledIsOne};

/// A session ends as its machine does, but where there is no memory or the world failed.
///
/// - Where the count of the console, the clock and the attaching didn't rise, the status is that of the machine's end, or `Memory`.
/// - Where the count of the units didn't rise, every outcome of the machine's steps is good.
/// - Where neither rose and the machine comes to the script's end, the status is `Done`, all that the machine types is typed and each unit
///   is in the machine's last state; or it is `Memory`.
/// - At every status a crash leaves each unit that isn't in doubt in one state.
/// - An object that is asked is the very one that stands in its place; its own test holds of what it held, what it was told, what came back
///   and what it holds then.
/// - Behind the dropping of an object none is asked under its word any more, and none stands there in the end.
pub fn laws_of_sessions()
    ensures ends { EndsLikeMachine }
    ensures faults { FaultsAreCounted }
    ensures complete { Completes }
    ensures settled { SettledIsOne }
    ensures asked { AskedIsItself }
    ensures dropped { DroppedIsLost }
{}
