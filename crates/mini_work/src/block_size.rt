// The image is looked at before it is attached.
ghost use Rattle.std.specs.Prelude.{◌≡◌, ◌≤◌, length, take, is_some, IsSome, IfOk, OnOk};
ghost use Rattle.std.specs.Option.{ForSome, option_map};
ghost use Rattle.std.specs.Str.{bytes_eq};
ghost use Rattle.mini_host.specs.Files.{content_of, opened};
ghost use Rattle.mini_work.specs.Causes.{Counts, HasCause, on_host};
ghost use Rattle.mini_work.specs.BlockSizes as spec;
ghost use Rattle.mini_work.specs.HostTold.{SameFiles};

use crate::fault::Fault;
use crate::output::refuse;
use cms_fields::{LabelFault, read_label};
use cms_journal::{BlockSize, MOST_BLOCKS};
use mini_host::{Host, Refusal};
use mini_words::Image;
use std::alloc::Global;

// The bytes of a label that are looked at.
const LABEL_BYTES: usize = 80;

// Where the last label ends that an image may have: that of the greatest blocks.
const FRONT: usize = 8272;

/// The size of an image's blocks: the one that was said, or that at which its label is one. None where there is no such image, or no
/// one size: that was said.
pub(crate) fn find_size<H: Host>(
    alloc: Global,
    host: &mut H,
    image: &Image,
) -> Result<Option<BlockSize>, Fault>
    ensures size { IfOk result (spec.IsSizeOf (H.told host.old) image.now.name image.now.size) }
    ensures files { SameFiles (H.told host.old) (H.told host.new) }
    ensures cause { (c : Counts) → HasCause (on_host c (H.faults host.old))
        (on_host c (H.faults host.new)) result }
{
    let name = image.name.text();
    if !open_file(host, name)? {
        refuse(alloc, host, name, Refusal::NotThere)?;
        return Ok(None);
    }
    match image.size {
        Some(size) => Ok(Some(size)),
        None => look(alloc, host, name),
    }
}

// The size at which the label of the open file is one.
fn look<H: Host>(alloc: Global, host: &mut H, name: &str) -> Result<Option<BlockSize>, Fault>
    requires { ForSome (H.told host.old) (λ f. IsSome f.left) }
    ensures size { IfOk result (λ size. ForSome (H.told host.old) (λ f. ForSome f.left (λ left.
        size ≡ spec.label_size (take spec.looked_at left)))) }
    ensures files { SameFiles (H.told host.old) (H.told host.new) }
    ensures cause { (c : Counts) → HasCause (on_host c (H.faults host.old))
        (on_host c (H.faults host.new)) result }
{
    let mut front = vec![in alloc; 0; FRONT]?;
    let count = read_front(host, &mut front)?;
    let size = label_size(&front[..count]);
    if size.is_none() {
        refuse(alloc, host, name, Refusal::NoBlockSize)?;
    }
    Ok(size)
}

/// Opens a host file, and says whether there is one of this name.
pub(crate) fn open_file<H: Host>(host: &mut H, name: &str) -> Result<bool, Fault>
    ensures there { IfOk result (λ there. ForSome (H.told host.old)
        (λ f. there ≡ is_some (content_of name.now f.files))) }
    ensures opened { OnOk result (H.told host.new
        ≡ option_map (opened name.now) (H.told host.old)) }
    ensures files { SameFiles (H.told host.old) (H.told host.new) }
    ensures cause { (c : Counts) → HasCause (on_host c (H.faults host.old))
        (on_host c (H.faults host.new)) result }
{
    match host.open(name) {
        Ok(there) => Ok(there),
        Err(_) => Err(Fault::Host),
    }
}

/// Whether two names are of one host file.
pub(crate) fn is_same<H: Host>(host: &mut H, one: &str, other: &str) -> Result<bool, Fault>
    ensures same { IfOk result (λ same. ForSome (H.told host.old)
        (λ f. same ≡ bytes_eq one.now other.now)) }
    ensures told { H.told host.new ≡ H.told host.old }
    ensures cause { (c : Counts) → HasCause (on_host c (H.faults host.old))
        (on_host c (H.faults host.new)) result }
{
    match host.is_same(one, other) {
        Ok(same) => Ok(same),
        Err(_) => Err(Fault::Host),
    }
}

// Reads the front of the open file into a slice, as far as both go, and says how many bytes.
fn read_front<H: Host>(host: &mut H, into: &mut [u8]) -> Result<usize, Fault>
    requires { ForSome (H.told host.old) (λ f. IsSome f.left) }
    ensures within { IfOk result (λ n. n ≤ length into.new) }
    ensures front { IfOk result (λ n. ForSome (H.told host.old) (λ f. ForSome f.left (λ left.
        take n into.new ≡ take (length into.new) left))) }
    ensures files { SameFiles (H.told host.old) (H.told host.new) }
    ensures cause { (c : Counts) → HasCause (on_host c (H.faults host.old))
        (on_host c (H.faults host.new)) result }
{
    let mut count = 0;
    while count < into.len() {
        match host.read(&mut into[count..]) {
            Ok(0) => return Ok(count),
            Ok(more) => count += more,
            Err(_) => return Err(Fault::Host),
        }
    }
    Ok(count)
}

// The one size at which the third block of an image passes the label's tests of identifier and block size.
#[tactic(auto, unfolding(crate::specs::BlockSizes::label_size))]
fn label_size(front: &[u8]) -> Option<BlockSize>
    ensures { result ≡ spec.label_size front.now }
{
    let tiny = has_label(front, BlockSize::new(512));
    let small = has_label(front, BlockSize::new(1024));
    let large = has_label(front, BlockSize::new(2048));
    let huge = has_label(front, BlockSize::new(4096));
    match (tiny, small, large, huge) {
        (true, false, false, false) => Some(BlockSize::new(512)),
        (false, true, false, false) => Some(BlockSize::new(1024)),
        (false, false, true, false) => Some(BlockSize::new(2048)),
        (false, false, false, true) => Some(BlockSize::new(4096)),
        _ => None,
    }
}

#[tactic(auto, unfolding(crate::specs::BlockSizes::has_label))]
fn has_label(front: &[u8], size: BlockSize) -> bool
    ensures { result ≡ spec.has_label front.now size }
{
    let place = 2 * size.bytes() as usize;
    if front.len() < place + LABEL_BYTES {
        return false;
    }
    !matches!(
        read_label(&front[place..], size, MOST_BLOCKS),
        Err(LabelFault::Id | LabelFault::BlockSize)
    )
}
