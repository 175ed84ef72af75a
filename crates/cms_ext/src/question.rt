// One question to a boxed object.
ghost use Rattle.std.specs.Prelude.{◌≡◌};
ghost use Rattle.cms_ext.specs.Replies.{Answers};

use crate::extension::{ExtReply, ExtWant, Extension};
use std::alloc::{AllocError, Global};

/// Asks the object in a box. No other function calls `turn`: its proof goes by names that Rattle gave.
pub(crate) fn ask(
    alloc: Global,
    object: &mut Box<dyn Extension>,
    reply: &ExtReply,
) -> Result<ExtWant, AllocError>
    ensures same { (⟦<dyn Extension as Extension>⟧ object.new.vtable).does
        ≡ (⟦<dyn Extension as Extension>⟧ object.old.vtable).does }
    ensures answers { Answers (⟦<dyn Extension as Extension>⟧ object.old.vtable).does
        (content object.old) reply.now (content object.new) result }
{
    object.turn(alloc, reply)
}
