// What is said: notes on standard error, and texts on standard output.
ghost use Rattle.std.specs.Prelude.{◌≡◌, ◌≤◌, ℕ, true, [], map, IfOk, OnOk, OnErr};
ghost use Rattle.std.specs.String.{string_bytes};
ghost use Rattle.cms_ebcdic.specs.CodePage.{host_of};
ghost use Rattle.cms_journal.specs.Told.{Grown};
ghost use Rattle.cms_line.specs.Typed.{TypedPart, TypedTo};
ghost use Rattle.cms_model.specs.Acts.{typed_line};
ghost use Rattle.cms_disk.specs.Disks.{Accessed};
ghost use Rattle.mini_work.specs.Causes.{Counts, HasCause, HasEnd, is_failure, on_host, on_world};
ghost use Rattle.mini_work.specs.Changes.{IsTold};
ghost use Rattle.mini_work.specs.CommandActs.{Continues};
ghost use Rattle.mini_work.specs.HostTold.{Noted, SameFiles};
ghost use Rattle.mini_work.specs.Output as spec;
ghost use Rattle.mini_work.specs.declared.status.Status.TheVariants as status;

use crate::fault::Fault;
use crate::status::Status;
use cms_ebcdic::to_host;
use cms_line::type_line;
use cms_names::Name;
use cms_world::{ImageName, World};
use mini_host::{Host, Note, Refusal};
use std::alloc::{AllocError, Global};

// The period of code page 037.
const PERIOD: u8 = 0x4B;

/// Says a refusal of a word on standard error.
pub(crate) fn refuse<H: Host>(
    alloc: Global,
    host: &mut H,
    word: &str,
    refusal: Refusal,
) -> Result<Status, Fault>
    ensures status { IfOk result (λ s. s ≡ status.Refused) }
    ensures noted { OnOk result (Noted (H.told host.old) (H.told host.new)) }
    ensures files { SameFiles (H.told host.old) (H.told host.new) }
    ensures cause { (c : Counts) → HasCause (on_host c (H.faults host.old))
        (on_host c (H.faults host.new)) result }
{
    let word = ImageName::of(alloc, word)?;
    match host.note(Note { word, refusal }) {
        Ok(()) => Ok(Status::Refused),
        Err(_) => Err(Fault::Host),
    }
}

/// Says the fault that ends a command at a word. Where that can't be said it is as if it were.
pub(crate) fn say_fault<H: Host>(alloc: Global, host: &mut H, word: &str, fault: Fault) -> Fault
    ensures later { H.faults host.old ≤ H.faults host.new }
    ensures cause { is_failure result ≡ true → is_failure fault ≡ true }
{
    if let Fault::Memory | Fault::Said = fault {
        return fault;
    }
    match refuse(alloc, host, word, fault.refusal()) {
        Err(Fault::Memory) => Fault::Memory,
        _ => Fault::Said,
    }
}

/// A name as a text of EBCDIC, FN.FT.
pub(crate) fn name_text(alloc: Global, name: &Name) -> Result<Vec<u8>, AllocError>
    ensures { IfOk result (λ text. text.items ≡ spec.name_text name.now) }
{
    let mut text = name.file.as_bytes().to_vec(alloc)?;
    text.push(PERIOD)?;
    text.extend_from_slice(name.kind.as_bytes())?;
    Ok(text)
}

/// A name as a word of the host, FN.FT.
pub(crate) fn name_word(alloc: Global, name: &Name) -> Result<String, AllocError>
    ensures { IfOk result (λ word. string_bytes word ≡ spec.name_word name.now) }
{
    let text = name_text(alloc, name)?;
    host_text(alloc, &text)
}

// A text of EBCDIC as the host has it.
fn host_text(alloc: Global, text: &[u8]) -> Result<String, AllocError>
    ensures { IfOk result (λ word. string_bytes word ≡ map host_of text.now) }
{
    let mut word = String::new(alloc);
    for code in text {
        word.push(char::from(to_host(*code)))?;
    }
    Ok(word)
}

/// Types a line of EBCDIC on standard output.
pub(crate) fn say_line<W: World>(world: &mut W, line: &[u8]) -> Result<(), Fault>
    ensures ok { OnOk result (TypedTo (W.told world.old) (W.told world.new)
        (typed_line line.now) []) }
    ensures err { OnErr result (TypedPart (W.told world.old) (W.told world.new)
        (typed_line line.now)) }
    ensures cause { (n : ℕ) → HasCause (on_world W.World world.old n)
        (on_world W.World world.new n) result }
{
    match type_line(world, line) {
        Ok(()) => Ok(()),
        Err(_) => Err(Fault::Output),
    }
}

/// Types a line of EBCDIC on standard output, where that is asked for.
pub(crate) fn say_if<W: World>(world: &mut W, line: &[u8], says: bool) -> Result<Status, Fault>
    ensures goes { (d : Accessed)
        → Continues (IsTold says (typed_line line.now)) (W.told world.old) d
        (W.told world.new) d result }
    ensures done { IfOk result (λ s. s ≡ status.Done) }
    ensures grown { Grown (W.told world.old) (W.told world.new) }
    ensures cause { (n : ℕ) → HasEnd (on_world W.World world.old n)
        (on_world W.World world.new n) result }
{
    if says {
        say_line(world, line)?;
    }
    Ok(Status::Done)
}

/// Types a name on standard output, where that is asked for.
pub(crate) fn say_name<W: World>(
    alloc: Global,
    world: &mut W,
    name: &Name,
    says: bool,
) -> Result<Status, Fault>
    ensures goes { (d : Accessed)
        → Continues (IsTold says (spec.name_line name.now)) (W.told world.old) d
        (W.told world.new) d result }
    ensures done { IfOk result (λ s. s ≡ status.Done) }
    ensures grown { Grown (W.told world.old) (W.told world.new) }
    ensures cause { (n : ℕ) → HasEnd (on_world W.World world.old n)
        (on_world W.World world.new n) result }
{
    let text = name_text(alloc, name)?;
    say_if(world, &text, says)
}

/// Types bytes on standard output, each time as many as the world takes.
pub(crate) fn type_bytes<W: World>(world: &mut W, bytes: &[u8]) -> Result<(), Fault>
    ensures ok { OnOk result (TypedTo (W.told world.old) (W.told world.new) bytes.now []) }
    ensures err { OnErr result (TypedPart (W.told world.old) (W.told world.new) bytes.now) }
    ensures cause { (n : ℕ) → HasCause (on_world W.World world.old n)
        (on_world W.World world.new n) result }
{
    let mut rest = bytes;
    while !rest.is_empty() {
        match world.type_out(rest) {
            Ok(count) => rest = &rest[count..],
            Err(_) => return Err(Fault::Output),
        }
    }
    Ok(())
}
