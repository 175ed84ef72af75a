// What an image holds, decoded or byte by byte.
ghost use Rattle.std.specs.Prelude.{◌≡◌, ◌≤◌, ℕ, length, vec_len, IfOk, IfSome};
ghost use Rattle.mini_work.specs.Causes.{HasCause, HasEnd, counts, on_world};
ghost use Rattle.mini_work.specs.OpenedImages.{HasRoom, IsNew, IsUnwritten, MayUse};
ghost use Rattle.mini_work.specs.Output.{OnlyTypes};

use crate::block_size::find_size;
use crate::directory::{read_any, show_directory};
use crate::entries::{MOST_ENTRIES, SYSTEM_ENTRIES, entry_line, push_bytes, push_codes};
use crate::fault::Fault;
use crate::opened_image::attach;
use crate::output::{refuse, type_bytes};
use crate::status::Status;
use cms_disk::{OpenFault, UnitInfo};
use cms_edf::{Held, open_volume};
use cms_fields::{LabelFault, read_label};
use cms_text::bytes::word_at;
use cms_world::{Access, World};
use mini_host::{Host, Refusal};
use mini_words::Image;
use std::alloc::{AllocError, Global};

// The block of the label.
const LABEL: u32 = 3;

/// Shows the label and the entries of an image, or some of its blocks.
pub(crate) fn dump<W: World, H: Host>(
    alloc: Global,
    world: &mut W,
    host: &mut H,
    image: &Image,
    blocks: &[u32],
) -> Result<Status, Fault>
    requires room { HasRoom (W.told world.old) }
    ensures goes { IsNew (W.told world.old) → IsUnwritten (W.told world.new) }
    ensures cause { HasEnd (counts W.World H.Host world.old host.old)
        (counts W.World H.Host world.new host.new) result }
{
    match find_size(alloc, host, image)? {
        Some(size) => {
            let name = image.name.text();
            let unit = attach(world, name, size, Access::ReadOnly)?;
            dump_unit(alloc, world, host, name, &unit, blocks)
        }
        None => Ok(Status::Refused),
    }
}

// Shows the label and the entries of a unit, or some of its blocks.
fn dump_unit<W: World, H: Host>(
    alloc: Global,
    world: &mut W,
    host: &mut H,
    image: &str,
    unit: &UnitInfo,
    blocks: &[u32],
) -> Result<Status, Fault>
    requires { MayUse (W.told world.old) unit.now }
    ensures goes { OnlyTypes (W.told world.old) (W.told world.new) }
    ensures cause { HasEnd (counts W.World H.Host world.old host.old)
        (counts W.World H.Host world.new host.new) result }
{
    if blocks.is_empty() {
        return dump_volume(alloc, world, host, image, unit);
    }
    let mut status = Status::Done;
    for block in blocks {
        status = status.and(dump_block(alloc, world, host, image, unit, *block)?);
    }
    Ok(status)
}

// A block of a unit; none where it has none of this number: that was said.
fn find_block<W: World, H: Host>(
    alloc: Global,
    world: &mut W,
    host: &mut H,
    image: &str,
    unit: &UnitInfo,
    block: u32,
) -> Result<Option<Vec<u8>>, Fault>
    requires { MayUse (W.told world.old) unit.now }
    ensures least { IfOk result (λ found. IfSome found (λ bytes. 512 ≤ vec_len bytes)) }
    ensures told { W.told world.new ≡ W.told world.old }
    ensures cause { HasCause (counts W.World H.Host world.old host.old)
        (counts W.World H.Host world.new host.new) result }
{
    match read_any(alloc, world, unit, block)? {
        Some(bytes) => Ok(Some(bytes)),
        None => {
            refuse(alloc, host, image, Refusal::NoBlock(block))?;
            Ok(None)
        }
    }
}

// Shows the bytes of a block.
fn dump_block<W: World, H: Host>(
    alloc: Global,
    world: &mut W,
    host: &mut H,
    image: &str,
    unit: &UnitInfo,
    block: u32,
) -> Result<Status, Fault>
    requires { MayUse (W.told world.old) unit.now }
    ensures goes { OnlyTypes (W.told world.old) (W.told world.new) }
    ensures cause { HasEnd (counts W.World H.Host world.old host.old)
        (counts W.World H.Host world.new host.new) result }
{
    let Some(bytes) = find_block(alloc, world, host, image, unit, block)? else {
        return Ok(Status::Refused);
    };
    let text = block_lines(alloc, block, &bytes)?;
    type_bytes(world, text.as_bytes())?;
    Ok(Status::Done)
}

// The number of a block, and its bytes.
fn block_lines(alloc: Global, block: u32, bytes: &[u8]) -> Result<String, AllocError> {
    let mut text = format!(in alloc; "block {block}:\n")?;
    push_bytes(&mut text, bytes)?;
    Ok(text)
}

// Shows the label and the entries of a volume, also of one that doesn't open.
fn dump_volume<W: World, H: Host>(
    alloc: Global,
    world: &mut W,
    host: &mut H,
    image: &str,
    unit: &UnitInfo,
) -> Result<Status, Fault>
    requires { MayUse (W.told world.old) unit.now }
    ensures goes { OnlyTypes (W.told world.old) (W.told world.new) }
    ensures cause { HasEnd (counts W.World H.Host world.old host.old)
        (counts W.World H.Host world.new host.new) result }
{
    let Some(bytes) = find_block(alloc, world, host, image, unit, LABEL)? else {
        return Ok(Status::Refused);
    };
    show_label(alloc, world, unit, &bytes)?;
    show_volume(alloc, world, unit, word_at(&bytes, 16))
}

// Shows what a label says.
fn show_label<W: World>(
    alloc: Global,
    world: &mut W,
    unit: &UnitInfo,
    bytes: &[u8],
) -> Result<(), Fault>
    requires { 80 ≤ length bytes.now }
    ensures goes { OnlyTypes (W.told world.old) (W.told world.new) }
    ensures cause { (n : ℕ) → HasCause (on_world W.World world.old n)
        (on_world W.World world.new n) result }
{
    let text = label_lines(alloc, bytes, unit)?;
    type_bytes(world, text.as_bytes())
}

// Shows the entries of a volume, also of one that doesn't open.
fn show_volume<W: World>(
    alloc: Global,
    world: &mut W,
    unit: &UnitInfo,
    origin: u32,
) -> Result<Status, Fault>
    requires { MayUse (W.told world.old) unit.now }
    ensures goes { OnlyTypes (W.told world.old) (W.told world.new) }
    ensures cause { (n : ℕ) → HasEnd (on_world W.World world.old n)
        (on_world W.World world.new n) result }
{
    match open_volume(alloc, world, &unit.unit, unit.bsize) {
        Ok(held) => {
            let shown = show_held(alloc, world, unit, origin, &held);
            drop(held);
            shown
        }
        Err(OpenFault::Device) => Err(Fault::Image),
        Err(OpenFault::Memory) => Err(Fault::Memory),
        Err(_) => show_directory(alloc, world, unit, origin, MOST_ENTRIES),
    }
}

// Shows the entries of a volume that opens: the directory's own and the map's, and those of the files.
fn show_held<W: World>(
    alloc: Global,
    world: &mut W,
    unit: &UnitInfo,
    origin: u32,
    held: &Held,
) -> Result<Status, Fault>
    requires { MayUse (W.told world.old) unit.now }
    ensures goes { OnlyTypes (W.told world.old) (W.told world.new) }
    ensures cause { (n : ℕ) → HasEnd (on_world W.World world.old n)
        (on_world W.World world.new n) result }
{
    show_directory(alloc, world, unit, origin, SYSTEM_ENTRIES)?;
    show_entries(alloc, world, held)
}

// What a label says, and the first test that it fails.
fn label_lines(alloc: Global, bytes: &[u8], unit: &UnitInfo) -> Result<String, AllocError>
    requires { 80 ≤ length bytes.now }
{
    let mut text = String::new(alloc);
    push_label(&mut text, bytes, unit)?;
    Ok(text)
}

// The first test that a label fails, and what it says.
fn push_label(text: &mut String, bytes: &[u8], unit: &UnitInfo) -> Result<(), AllocError>
    requires { 80 ≤ length bytes.now }
{
    if let Err(why) = read_label(bytes, unit.bsize, unit.unit.blocks) {
        writeln!(text, "label: {} is wrong", label_test(why))?;
    }
    text.push_str("identifier: ")?;
    push_codes(text, &bytes[..4])?;
    text.push_str("\nlabel: ")?;
    push_codes(text, &bytes[4..10])?;
    push_numbers(text, bytes)
}

// The numbers of a label.
fn push_numbers(text: &mut String, bytes: &[u8]) -> Result<(), AllocError>
    requires { 80 ≤ length bytes.now }
{
    let (size, origin) = (word_at(bytes, 12), word_at(bytes, 16));
    let (blocks, used) = (word_at(bytes, 28), word_at(bytes, 32));
    let entry_size = word_at(bytes, 36);
    writeln!(text, "\nblock size: {size}\ndirectory: block {origin}")?;
    writeln!(
        text,
        "blocks: {blocks}\nused: {used}\nentry size: {entry_size}"
    )
}

fn label_test(why: LabelFault) -> &'static str {
    match why {
        LabelFault::Id => "the identifier",
        LabelFault::BlockSize => "the block size",
        LabelFault::Origin => "the directory's block",
        LabelFault::Count => "the count of blocks",
        LabelFault::EntrySize => "the entry size",
    }
}

// Shows the entries of the files of a volume, by their numbers in the directory.
fn show_entries<W: World>(alloc: Global, world: &mut W, held: &Held) -> Result<Status, Fault>
    ensures goes { OnlyTypes (W.told world.old) (W.told world.new) }
    ensures cause { (n : ℕ) → HasEnd (on_world W.World world.old n)
        (on_world W.World world.new n) result }
{
    for (place, file) in held.by_name().values().enumerate() {
        let number = place.saturating_add(SYSTEM_ENTRIES);
        let line = entry_line(alloc, number, file.entry())?;
        type_bytes(world, line.as_bytes())?;
    }
    Ok(Status::Done)
}
