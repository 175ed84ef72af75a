// TALLY.
ghost use Rattle.std.specs.Prelude.{◌≡◌, ◌≤◌, ◌∷◌, [], IfOk, OnOk, OnErr};
ghost use Rattle.cms_ext.specs.Exact.{exactly};
ghost use Rattle.cms_ext.specs.Tally as spec;
ghost use Rattle.cms_ext.specs.Tally.{most};
ghost use Rattle.cms_ext.specs.declared.extension.ExtWant.TheVariants.{Say};

use crate::extension::{ExtReply, ExtWant, Extension};
use cms_text::{Line, Lines, coded, decimal};
use std::alloc::{AllocError, Global};

// A count goes no further.
const MOST: u32 = 1_000_000_000;

// The code of what it doesn't do.
const UNKNOWN: i32 = 24;

/// An extension that counts how often it was started.
#[derive(Drop)]
pub struct Tally {
    count: u32,
    ghost few: { count ≤ most },
}

impl Tally {
    /// It was never started.
    pub fn new() -> Tally
        ensures { result.count ≡ 0 }
    {
        Tally { count: 0 }
    }

    // TALLY and the count.
    fn line(&self, alloc: Global) -> Result<Line, AllocError>
        ensures { IfOk result (λ line. line ≡ spec.tally_line self.now.count) }
    {
        let mut line = coded(b"TALLY ").to_vec(alloc)?;
        line.extend_from_slice(decimal(alloc, self.count)?.bytes())?;
        Ok(Line::take(line))
    }

    // Adds one, and says the count.
    fn start(&mut self, alloc: Global) -> Result<ExtWant, AllocError>
        ensures says { IfOk result (λ want.
            want ≡ Say (spec.tally_line (spec.counted self.old.count) ∷ [])) }
        ensures counts { OnOk result (self.new.count ≡ spec.counted self.old.count) }
        ensures kept { OnErr result (self.new.count ≡ self.old.count) }
    {
        let next = Tally {
            count: (self.count + 1).min(MOST),
        };
        let mut lines = Lines::new(alloc);
        lines.push(next.line(alloc)?)?;
        self.count = next.count;
        Ok(ExtWant::Say(lines))
    }
}

impl Extension for Tally {
    ghost content = { λ t. spec.held t.count };

    ghost does = { exactly spec.tally };

    fn turn(&mut self, alloc: Global, reply: &ExtReply) -> Result<ExtWant, AllocError> {
        match reply {
            ExtReply::Start(_) => self.start(alloc),
            ExtReply::Went => Ok(ExtWant::Done(0)),
            ExtReply::Sub(_) | ExtReply::Got(_) | ExtReply::File(_) | ExtReply::Refused(_) => {
                Ok(ExtWant::Done(UNKNOWN))
            }
        }
    }
}
