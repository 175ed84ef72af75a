// What a command asks of host files.
ghost use Rattle.std.specs.Prelude.{◌≡◌, ◌≤◌, ◌<◌, ◌+◌, ℕ, true, false, not, length, take, is_some, IsSome, Option, None, OnOk, OnErr, IfOk};
ghost use Rattle.std.specs.Option.{ForSome, option_map};
ghost use Rattle.std.specs.Str.{bytes_eq};
ghost use Rattle.cms_journal.specs.Causes.{HasCause};
ghost use Rattle.mini_host.specs.Files.{Files, begun, content_of, drafted, is_folder, is_taken, kept, noted, opened, read_on, written};

use crate::{Failed, Note};

/// Host files, and standard error.
///
/// A host has a count that never falls. Each call answers [`Failed`] only where it rose in this call (or stands at the last value
/// of a counter), and then what the host tells is as before. A host may tell what its files hold; what a call needs it needs
/// only there. Names are the system's, with their folders; `-` is standard input.
pub trait Host {
    /// How often a call failed.
    ghost faults: { Self → ℕ };

    /// The files, or none where the host doesn't tell them.
    ghost told: { Self → Option Files };

    /// How many bytes are still read of the open file at most.
    ghost rest: { Self → ℕ };

    /// Opens a plain file before its first byte, and says whether there is one of this name. Another file that was open is so no
    /// more.
    fn open(&mut self, name: &str) -> Result<bool, Failed>
        ensures there { IfOk result (λ there. ForSome (told self.old)
            (λ f. there ≡ is_some (content_of name.now f.files))) }
        ensures opened { OnOk result (told self.new
            ≡ option_map (opened name.now) (told self.old)) }
        ensures failed { OnErr result (told self.new ≡ told self.old) }
        ensures cause { HasCause (faults self.old) (faults self.new) result };

    /// Reads the next bytes of the open file into the front of a slice that isn't empty, and says how many: none are its end.
    fn read(&mut self, into: &mut [u8]) -> Result<usize, Failed>
        requires some { 0 < length into.old }
        requires opened { ForSome (told self.old) (λ f. IsSome f.left) }
        ensures within { IfOk result (λ n. n ≤ length into.old) }
        ensures bytes { IfOk result (λ n. ForSome (told self.old)
            (λ f. ForSome f.left (λ left. take n into.new ≡ take n left))) }
        ensures all { IfOk result (λ n. ForSome (told self.old)
            (λ f. ForSome f.left (λ left. (n ≤ length left) × (n ≡ 0 → length left ≡ 0)))) }
        ensures told { IfOk result (λ n. told self.new ≡ option_map (read_on n) (told self.old)) }
        ensures rest { IfOk result (λ n. rest self.new + n ≤ rest self.old) }
        ensures failed { OnErr result (told self.new ≡ told self.old) }
        ensures cause { HasCause (faults self.old) (faults self.new) result };

    /// Whether there is a folder of this name.
    fn has_folder(&mut self, name: &str) -> Result<bool, Failed>
        ensures folder { IfOk result (λ there. ForSome (told self.old)
            (λ f. there ≡ is_folder name.now f)) }
        ensures told { told self.new ≡ told self.old }
        ensures cause { HasCause (faults self.old) (faults self.new) result };

    /// Whether two names are of one file. Where the host tells its files, one that has two names is none.
    fn is_same(&mut self, one: &str, other: &str) -> Result<bool, Failed>
        ensures same { IfOk result (λ same. ForSome (told self.old)
            (λ f. same ≡ bytes_eq one.now other.now)) }
        ensures told { told self.new ≡ told self.old }
        ensures cause { HasCause (faults self.old) (faults self.new) result };

    /// Begins a file that is to have this name once it is whole, and says whether it may: where there is one it may only take
    /// its place, `over` it. What was written of another file is thrown away.
    fn begin(&mut self, name: &str, over: bool) -> Result<bool, Failed>
        ensures may { IfOk result (λ may. ForSome (told self.old)
            (λ f. may ≡ not (is_taken name.now over f.files))) }
        ensures begun { IfOk result (λ may. may ≡ true
            → told self.new ≡ option_map (begun name.now over) (told self.old)) }
        ensures refused { IfOk result (λ may. may ≡ false → told self.new ≡ told self.old) }
        ensures failed { OnErr result (told self.new ≡ told self.old) }
        ensures cause { HasCause (faults self.old) (faults self.new) result };

    /// Writes bytes behind those of the file that is begun.
    fn write(&mut self, from: &[u8]) -> Result<(), Failed>
        requires { ForSome (told self.old) (λ f. IsSome f.draft) }
        ensures wrote { OnOk result (told self.new
            ≡ option_map (written from.now) (told self.old)) }
        ensures failed { OnErr result (told self.new ≡ told self.old) }
        ensures cause { HasCause (faults self.old) (faults self.new) result };

    /// Gives the file that is begun its name, as a whole and to stay, and says whether it has it: another program may have put a
    /// file there, which one that isn't over it doesn't replace. Where the host tells its files there is no other program.
    fn keep(&mut self) -> Result<bool, Failed>
        requires { ForSome (told self.old) (λ f. IsSome f.draft) }
        ensures has_it { IfOk result (λ has_it. ForSome (told self.old) (λ f. has_it ≡ true)) }
        ensures kept { IfOk result (λ has_it. told self.new ≡ option_map kept (told self.old)) }
        ensures failed { OnErr result (told self.new ≡ told self.old) }
        ensures cause { HasCause (faults self.old) (faults self.new) result };

    /// Throws away what was written of the file that is begun, if one is.
    fn discard(&mut self)
        ensures told { told self.new ≡ option_map (drafted None) (told self.old) }
        ensures faults { faults self.new ≡ faults self.old };

    /// Says a note on standard error.
    fn note(&mut self, note: Note) -> Result<(), Failed>
        ensures noted { OnOk result (told self.new ≡ option_map (noted note) (told self.old)) }
        ensures failed { OnErr result (told self.new ≡ told self.old) }
        ensures cause { HasCause (faults self.old) (faults self.new) result };
}
