// An image is checked.
ghost use Rattle.std.specs.Prelude.{◌≡◌, ℕ, IfOk};
ghost use Rattle.std.specs.String.{string_bytes};
ghost use Rattle.mini_work.specs.Causes.{HasEnd, counts, on_world};
ghost use Rattle.mini_work.specs.Checks.{IsShowing, Shows, sound_line, sound_text};
ghost use Rattle.mini_work.specs.OpenedImages.{HasRoom, IsNew};
ghost use Rattle.mini_work.specs.Output.{OnlyTypes};

use crate::fault::Fault;
use crate::opened_image::open_held;
use crate::output::type_bytes;
use crate::status::Status;
use cms_edf::Held;
use cms_world::World;
use mini_host::Host;
use mini_words::Image;
use std::alloc::{AllocError, Global};

/// Says that an image is sound, or the first test of an opening that it fails.
pub(crate) fn check<W: World, H: Host>(
    alloc: Global,
    world: &mut W,
    host: &mut H,
    image: &Image,
) -> Result<Status, Fault>
    requires { HasRoom (W.told world.old) }
    ensures goes { IsNew (W.told world.old)
        → IsShowing image.now.name (sound_text image.now.name) (W.told world.new) result }
    ensures cause { HasEnd (counts W.World H.Host world.old host.old)
        (counts W.World H.Host world.new host.new) result }
{
    match open_held(alloc, world, host, image)? {
        Some(held) => {
            let done = say_sound(alloc, world, image.name.text(), &held);
            drop(held);
            done
        }
        None => Ok(Status::Refused),
    }
}

// Says that an image is sound.
fn say_sound<W: World>(
    alloc: Global,
    world: &mut W,
    image: &str,
    held: &Held,
) -> Result<Status, Fault>
    ensures shows { Shows (W.told world.old) (W.told world.new)
        (sound_text image.now held.now.volume) result }
    ensures typed { OnlyTypes (W.told world.old) (W.told world.new) }
    ensures cause { (n : ℕ) → HasEnd (on_world W.World world.old n)
        (on_world W.World world.new n) result }
{
    let line = line_of(alloc, image, held.count(), held.lost())?;
    type_bytes(world, line.as_bytes())?;
    Ok(Status::Done)
}

// The line of a sound image.
fn line_of(alloc: Global, image: &str, files: u32, lost: u32) -> Result<String, AllocError>
    ensures { IfOk result (λ line. string_bytes line ≡ sound_line image.now files lost) }
{
    format!(in alloc; "{image}: sound, {files} files, {lost} blocks lost\n")
}
