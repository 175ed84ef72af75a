// The commands.
ghost use Rattle.std.specs.Prelude.{◌≡◌, IfOk};
ghost use Rattle.mini_words.specs.Ranges.{IsWithin};
ghost use Rattle.mini_work.specs.Causes.{HasEnd, OneRose, counts};
ghost use Rattle.mini_work.specs.OpenedImages.{HasRoom, IsNew};
ghost use Rattle.mini_work.specs.Requests.{IsDone, TellsRecords, Works};
ghost use Rattle.mini_work.specs.declared.status.Status.TheVariants as status;

use crate::change::{erase, rename};
use crate::check::check;
use crate::dump::dump;
use crate::fault::Fault;
use crate::get::get;
use crate::listing::{info, list};
use crate::new_image::make;
use crate::output::say_fault;
use crate::put::put;
use crate::status::Status;
use cms_world::World;
use mini_host::Host;
use mini_words::Request;
use std::alloc::{AllocError, Global};

/// Does what is asked for.
pub fn work<W: World, H: Host>(
    alloc: Global,
    world: &mut W,
    host: &mut H,
    request: &Request,
) -> Result<Status, AllocError>
    requires room { HasRoom (W.told world.old) }
    requires within { IsWithin request.now }
    ensures goes { IsNew (W.told world.old)
        → IfOk result (Works request.now (H.told host.old) (H.told host.new) (W.told world.new)) }
    ensures cause { TellsRecords request.now (W.told world.old)
        → IfOk result
        (λ s. s ≡ status.Failed
        → OneRose (counts W.World H.Host world.old host.old)
        (counts W.World H.Host world.new host.new)) }
{
    match carry_out(alloc, world, host, request) {
        Ok(status) => Ok(status),
        Err(fault) => match say_fault(alloc, host, image_of(request), fault) {
            Fault::Memory => Err(AllocError),
            _ => Ok(Status::Failed),
        },
    }
}

// The image that it is about.
fn image_of(request: &Request) -> &str {
    match request {
        Request::List { image, .. }
        | Request::Info(image)
        | Request::Erase { image, .. }
        | Request::Rename { image, .. }
        | Request::Check(image)
        | Request::Dump { image, .. } => image.name.text(),
        Request::Get(get) => get.image.name.text(),
        Request::Put(put) => put.image.name.text(),
        Request::Make { image, .. } => image.text(),
    }
}

fn carry_out<W: World, H: Host>(
    alloc: Global,
    world: &mut W,
    host: &mut H,
    request: &Request,
) -> Result<Status, Fault>
    requires room { HasRoom (W.told world.old) }
    requires within { IsWithin request.now }
    ensures goes { IsNew (W.told world.old)
        → IsDone request.now (H.told host.old) (H.told host.new) (W.told world.new) result }
    ensures cause { TellsRecords request.now (W.told world.old)
        → HasEnd (counts W.World H.Host world.old host.old)
        (counts W.World H.Host world.new host.new) result }
{
    match request {
        Request::List { image, long, names } => {
            list(alloc, world, host, image, *long, names.as_slice())
        }
        Request::Info(image) => info(alloc, world, host, image),
        Request::Get(request) => get(alloc, world, host, request),
        Request::Put(request) => put(alloc, world, host, request),
        Request::Erase {
            image,
            says,
            offset,
            names,
        } => erase(alloc, world, host, image, *says, *offset, names.as_slice()),
        Request::Rename {
            image,
            says,
            offset,
            from,
            to,
        } => rename(alloc, world, host, image, *says, *offset, from, to),
        Request::Make {
            image,
            size,
            blocks,
            label,
            offset,
        } => make(
            alloc,
            world,
            host,
            image.text(),
            *size,
            *blocks,
            *label,
            *offset,
        ),
        Request::Check(image) => check(alloc, world, host, image),
        Request::Dump { image, blocks } => dump(alloc, world, host, image, blocks.as_slice()),
    }
}
