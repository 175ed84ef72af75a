// The parts of a session, and how they end.
use cms_cards::Reader;
use cms_search::State;
use exec2_run::{Exec, Stack};

/// All that a session holds apart from its world.
#[derive(Drop)]
pub struct Session {
    /// the disks, the program stack, the console, the turns and their moment
    pub state: State,
    /// those that run, the newest first, each but the last begun by the one behind it; each stands between two statements, but those that
    /// issued the line or the command that runs
    pub procedures: Stack<Exec>,
    /// the decks that were punched and wait to be read
    pub reader: Reader,
}

/// How a session ends that isn't cut off.
#[derive(Clone, Copy)]
pub enum Finish {
    /// at the script's end
    AtEnd,
    /// a turn is due, and none is left
    AtTurns,
}

/// How a round of the session ends.
#[derive(Clone, Copy)]
pub enum Round {
    /// so that the session ends
    Ended(Finish),
    /// another round may follow
    Ready,
}
