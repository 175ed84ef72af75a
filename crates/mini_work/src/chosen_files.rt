// The files that names fit.
ghost use Rattle.std.specs.Prelude.{◌≡◌, [], IfOk};
ghost use Rattle.std.specs.List.{list_any};
ghost use Rattle.cms_held.specs.HeldVolumes.{names_in};
ghost use Rattle.mini_work.specs.Causes.{Counts, HasEnd, on_host};
ghost use Rattle.mini_work.specs.ChosenFiles as spec;
ghost use Rattle.mini_work.specs.HostTold.{SameFiles};

use crate::fault::Fault;
use crate::output::refuse;
use crate::status::Status;
use cms_disk::Minidisk;
use cms_names::Name;
use mini_host::{Host, Refusal};
use mini_words::NamePattern;
use std::alloc::{AllocError, Global};

/// The names of the files of a minidisk, in the order of its directory.
pub(crate) fn names_of(alloc: Global, disk: &Minidisk) -> Result<Vec<Name>, AllocError>
    ensures { IfOk result (λ names. names.items ≡ names_in disk.now.volume.files) }
{
    let mut names = Vec::new(alloc);
    for nth in 0..disk.count() {
        names.push(disk.info(nth).name)?;
    }
    Ok(names)
}

/// Whether a name is one that a pattern stands for.
pub(crate) fn fits(pattern: &NamePattern, name: &Name) -> bool
    ensures { result ≡ spec.fits_name pattern.now name.now }
{
    pattern.file.fits(&name.file) && pattern.kind.fits(&name.kind)
}

/// The names that patterns fit, in the patterns' order and for one of them in their own, each once.
pub(crate) fn choose(
    alloc: Global,
    names: &[Name],
    patterns: &[NamePattern],
) -> Result<Vec<Name>, AllocError>
    ensures { IfOk result (λ chosen. chosen.items ≡ spec.chosen [] patterns.now names.now) }
{
    let mut chosen = Vec::new(alloc);
    for place in 0..patterns.len() {
        let (before, _) = patterns.split_at(place);
        let more = fitting(alloc, names, &patterns[place], before)?;
        chosen.extend_from_slice(&more)?;
    }
    Ok(chosen)
}

// The names that a pattern fits and none of those before it.
fn fitting(
    alloc: Global,
    names: &[Name],
    pattern: &NamePattern,
    before: &[NamePattern],
) -> Result<Vec<Name>, AllocError>
    ensures { IfOk result (λ fitting. fitting.items
        ≡ spec.fitting before.now pattern.now names.now) }
{
    names
        .iter()
        .filter(|name| fits(pattern, name) && !fits_any(before, name))
        .copied()
        .collect(alloc)
}

/// Whether any of the patterns fits a name.
pub(crate) fn fits_any(patterns: &[NamePattern], name: &Name) -> bool
    ensures { result ≡ spec.fits_any patterns.now name.now }
{
    patterns.iter().any(|pattern| fits(pattern, name))
}

// Whether a pattern fits any of the names.
fn fits_some(names: &[Name], pattern: &NamePattern) -> bool
    ensures { result ≡ list_any (λ name. spec.fits_name pattern.now name) names.now }
{
    names.iter().any(|name| fits(pattern, name))
}

// Whether a pattern fits none of the names.
fn is_idle(names: &[Name], pattern: &NamePattern) -> bool
    ensures { result ≡ spec.is_idle names.now pattern.now }
{
    !fits_some(names, pattern)
}

/// Says which patterns fit none of the names.
pub(crate) fn refuse_idle<H: Host>(
    alloc: Global,
    host: &mut H,
    names: &[Name],
    patterns: &[NamePattern],
) -> Result<Status, Fault>
    ensures idle { IfOk result (λ s. s ≡ spec.idle_status patterns.now names.now) }
    ensures files { SameFiles (H.told host.old) (H.told host.new) }
    ensures cause { (c : Counts) → HasEnd (on_host c (H.faults host.old))
        (on_host c (H.faults host.new)) result }
{
    let mut status = Status::Done;
    for pattern in patterns {
        if is_idle(names, pattern) {
            status = refuse(alloc, host, pattern.word.text(), Refusal::NothingFits)?;
        }
    }
    Ok(status)
}
