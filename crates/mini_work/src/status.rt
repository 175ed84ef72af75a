// What a command comes to.
ghost use Rattle.std.specs.Prelude.{◌≡◌};
ghost use Rattle.mini_work.specs.CommandActs.{both};

/// What a command came to that wasn't for want of memory.
#[derive(Clone, Copy, Debug)]
pub enum Status {
    /// all was done
    Done,
    /// something was refused, and said on standard error
    Refused,
    /// an image, a host file, the output or the clock failed
    Failed,
}

impl Status {
    /// What two things came to, one after another: the worse of both.
    #[tactic(auto, unfolding(crate::specs::CommandActs::both))]
    pub fn and(self, other: Status) -> Status
        ensures { result ≡ both self other }
    {
        match (self, other) {
            (Status::Failed, _) | (_, Status::Failed) => Status::Failed,
            (Status::Refused, _) | (_, Status::Refused) => Status::Refused,
            (Status::Done, Status::Done) => Status::Done,
        }
    }
}
