// ECHO: each line that it is given is said back, until an empty one.
ghost use Rattle.std.specs.Prelude.{◌≡◌, [], ◌∷◌, IfOk};
ghost use Rattle.cms_ext.specs.Exact.{exactly};
ghost use Rattle.cms_ext.specs.declared.extension.ExtWant.TheVariants.{Say};
ghost use Rattle.cms_session_tests.specs.Echo.{echo};

use cms_ext::{ExtReply, ExtWant, Extension};
use cms_text::{Line, Lines};
use std::alloc::{AllocError, Global};

/// An extension that says back each line that it is given, until an empty one.
#[derive(Drop)]
pub struct Echo;

// It says a line.
fn say(alloc: Global, line: &Line) -> Result<ExtWant, AllocError>
    ensures { IfOk result (λ want. want ≡ Say (line.now ∷ [])) }
{
    let mut lines = Lines::new(alloc);
    lines.push(Line::of(alloc, line.bytes())?)?;
    Ok(ExtWant::Say(lines))
}

impl Extension for Echo {
    ghost content = { λ e. [] };

    ghost does = { exactly echo };

    fn turn(&mut self, alloc: Global, reply: &ExtReply) -> Result<ExtWant, AllocError> {
        match reply {
            ExtReply::Start(_) | ExtReply::Went => Ok(ExtWant::Ask),
            ExtReply::Got(line) if line.bytes().is_empty() => Ok(ExtWant::Done(0)),
            ExtReply::Got(line) => say(alloc, line),
            ExtReply::Sub(_) | ExtReply::File(_) | ExtReply::Refused(_) => Ok(ExtWant::Done(24)),
        }
    }
}
