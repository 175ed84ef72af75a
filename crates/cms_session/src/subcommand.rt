// A text that a procedure sends to an extension.
ghost use Rattle.std.specs.Prelude.{◌≡◌, ◌≤◌, true};
ghost use Rattle.cms_fields.specs.Moments.{is_moment};
ghost use Rattle.cms_fields.specs.Offsets.{IsOffset};
ghost use Rattle.cms_search.specs.Calls.{spot, spot_with, Acts, IsUsable};
ghost use Rattle.cms_ext.specs.Calls.{ended_of};
ghost use Rattle.cms_ext.specs.Objects.{objects_of};
ghost use Rattle.cms_session.specs.RoundCalls.{send_tree};

use crate::dispatch::extension_named;
use crate::nucleus::refuse_absent;
use cms_ext::{ExtList, ExtReply, Extension, run};
use cms_line::{Line, Word};
use cms_search::{Course, End, State};
use cms_world::World;
use exec2_parse::folded;
use std::alloc::Global;

/// Sends a text to the extension of a word, in capital or small letters, which is run; where there is none that is typed.
pub fn send<W: World>(
    alloc: Global,
    world: &mut W,
    state: &mut State,
    extensions: &mut ExtList,
    word: &Word,
    text: Line,
) -> Result<Course, End>
    requires usable { IsUsable (spot W.World world.old state.old) }
    requires moment { is_moment state.old.moment ≡ true }
    requires offset { IsOffset state.old.offset }
    ensures acts { Acts
        (spot_with W.World world.old state.old
        (objects_of ⟦<dyn Extension as Extension>⟧ extensions.old))
        (spot_with W.World world.new state.new
        (objects_of ⟦<dyn Extension as Extension>⟧ extensions.new))
        (send_tree state.old (objects_of ⟦<dyn Extension as Extension>⟧ extensions.old)
        word.now text)
        result
        (ended_of state.new (objects_of ⟦<dyn Extension as Extension>⟧ extensions.new)) }
    ensures offset { state.new.offset ≡ state.old.offset }
    ensures left { state.new.left ≤ state.old.left }
{
    let word = folded(alloc, word.bytes())?;
    match extension_named(extensions, word.bytes()) {
        Some(place) => run(alloc, world, state, extensions, place, ExtReply::Sub(text)),
        None => refuse_absent(alloc, world, state, word),
    }
}
