// Real host files.
ghost use Rattle.std.specs.Prelude.{◌≡◌, ◌≤◌, ◌+◌, None, length, IfOk};
ghost use Rattle.cms_journal.specs.Causes.{Rose};
ghost use Rattle.mini_files.specs.Sources.{left_of};

use crate::draft::{Written, folder_of, sync_folder};
use crate::notes::{tell, tell_failure, tell_unsettled};
use crate::source::{Source, gather, is_absent, open_plain};
use cms_world::ImageName;
use mini_host::{Failed, Host, Note, Refusal};
use std::alloc::Global;
use std::fs::{File, Files};
use std::os::unix::fs::MetadataExt;
use std::{fs, io};

/// The word of standard input.
const INPUT: &str = "-";

/// Why a call failed, and on which file, where that is known.
#[derive(Drop)]
struct Trouble {
    file: Option<ImageName>,
    error: io::Error,
}

/// Host files over std. They tell nothing: no contract can name what a real file has.
///
/// A file that is begun is written under another name in the folder of the one that it is to have, `.NAME.K.tmp`. It is synced before
/// it gets that name, and the folder of all files that got theirs is synced once, by [`HostFiles::finish`]. Standard input is gathered
/// when it is opened first, to 268,435,456 bytes.
#[derive(Drop)]
pub struct HostFiles<R: Files<File = File> + io::Input + Eprint + Drop> {
    alloc: Global,
    rt: R,
    input: Option<Vec<u8>>,
    source: Option<Source>,
    draft: Option<Written>,
    // the first file that got its name; the folder isn't synced since
    named: Option<String>,
    trouble: Option<Trouble>,
    image: Option<ImageName>,
    faults: u64,
}

impl<R: Files<File = File> + io::Input + Eprint + Drop> HostFiles<R> {
    /// Host files, none of them open.
    pub fn new(alloc: Global, rt: R) -> Self
        ensures { result.faults ≡ 0 }
    {
        HostFiles {
            alloc,
            rt,
            input: None,
            source: None,
            draft: None,
            named: None,
            trouble: None,
            image: None,
            faults: 0,
        }
    }

    /// The image that failed, if one did. Why it did its world knows, so this note is left to the program.
    pub fn failed_image(&self) -> Option<&str> {
        match &self.image {
            Some(image) => Some(image.text()),
            None => None,
        }
    }

    /// Makes sure that the files which got their names keep them, and says whether they do. Where they may not, that is said on standard
    /// error.
    pub fn finish(&mut self) -> bool {
        let Some(name) = self.named.take() else {
            return true;
        };
        match sync_folder(&self.rt, name.as_str()) {
            Ok(()) => true,
            Err(error) => {
                let _ = tell_unsettled(&self.rt, folder_of(name.as_str()), &error);
                false
            }
        }
    }

    // Counts a failure, and keeps what failed.
    fn failed(&mut self, file: Option<ImageName>, error: io::Error) -> Failed
        ensures later { self.old.faults ≤ self.new.faults }
        ensures rose { Rose self.old.faults self.new.faults }
    {
        self.faults = self.faults.saturating_add(1);
        self.trouble = Some(Trouble { file, error });
        Failed
    }

    // The same of a call on this file.
    fn failed_on(&mut self, name: &str, error: io::Error) -> Failed
        ensures later { self.old.faults ≤ self.new.faults }
        ensures rose { Rose self.old.faults self.new.faults }
    {
        let file = ImageName::of(self.alloc, name).ok();
        self.failed(file, error)
    }

    // The file that is begun.
    fn begun(&self) -> Option<ImageName> {
        match &self.draft {
            Some(draft) => ImageName::of(self.alloc, draft.name()).ok(),
            None => None,
        }
    }

    // Gives a file its name, and says whether it has it. Its folder is synced later, but at once where it isn't that of the files before.
    fn name_draft(&mut self, draft: Written) -> io::Result<bool>
        ensures { self.new.faults ≡ self.old.faults }
    {
        let Some(name) = draft.keep(&self.rt)? else {
            return Ok(false);
        };
        match &self.named {
            Some(first) if folder_of(first.as_str()) == folder_of(name.as_str()) => {}
            Some(_) => sync_folder(&self.rt, name.as_str())?,
            None => self.named = Some(name),
        }
        Ok(true)
    }

    fn open_input(&mut self) -> io::Result<Source>
        ensures { self.new.faults ≡ self.old.faults }
    {
        if let Some(gathered) = &self.input {
            return Ok(Source::of_input(gathered));
        }
        let gathered = gather(self.alloc, &mut self.rt.reader())?;
        let source = Source::of_input(&gathered);
        self.input = Some(gathered);
        Ok(source)
    }

    fn open_source(&mut self, name: &str) -> io::Result<Option<Source>>
        ensures { self.new.faults ≡ self.old.faults }
    {
        if name == INPUT {
            return Ok(Some(self.open_input()?));
        }
        match open_plain(&self.rt, name)? {
            Some(file) => Ok(Some(Source::of_file(file)?)),
            None => Ok(None),
        }
    }

    fn read_source(&mut self, into: &mut [u8]) -> io::Result<usize>
        ensures within { IfOk result (λ n. n ≤ length into.old) }
        ensures rest { IfOk result (λ n. left_of self.new.source + n ≤ left_of self.old.source) }
        ensures faults { self.new.faults ≡ self.old.faults }
    {
        let gathered = match &self.input {
            Some(gathered) => gathered.as_slice(),
            None => &[],
        };
        match &mut self.source {
            Some(source) => source.read(gathered, into),
            None => Err(io::Error::other("no file is open")),
        }
    }
}

// Says why a call failed, of its file, or else of the word that the note is about.
fn tell_trouble<R: Eprint>(rt: &R, note: &Note, trouble: &Trouble) -> io::Result<()> {
    let word = match &trouble.file {
        Some(file) => file.text(),
        None => note.word.text(),
    };
    tell_failure(rt, word, &trouble.error)
}

// What stands under a name, by the numbers of its device and its node; none where nothing does.
fn node<R: Files<File = File>>(rt: &R, name: &str) -> io::Result<Option<(u64, u64)>> {
    match fs::metadata(rt, name) {
        Ok(metadata) => Ok(Some((metadata.dev(), metadata.ino()))),
        Err(error) if is_absent(&error) => Ok(None),
        Err(error) => Err(error),
    }
}

fn has_folder<R: Files<File = File>>(rt: &R, name: &str) -> io::Result<bool> {
    match fs::metadata(rt, name) {
        Ok(metadata) => Ok(metadata.is_dir()),
        Err(error) if is_absent(&error) => Ok(false),
        Err(error) => Err(error),
    }
}

fn is_same<R: Files<File = File>>(rt: &R, one: &str, other: &str) -> io::Result<bool> {
    if one == INPUT || other == INPUT {
        return Ok(false);
    }
    match (node(rt, one)?, node(rt, other)?) {
        (Some(one), Some(other)) => Ok(one == other),
        (_, _) => Ok(false),
    }
}

impl<R: Files<File = File> + io::Input + Eprint + Drop> Host for HostFiles<R> {
    ghost faults = { λ h. h.faults };

    ghost told = { λ h. None };

    ghost rest = { λ h. left_of h.source };

    fn open(&mut self, name: &str) -> Result<bool, Failed> {
        self.source = None;
        match self.open_source(name) {
            Ok(Some(source)) => {
                self.source = Some(source);
                Ok(true)
            }
            Ok(None) => Ok(false),
            Err(error) => Err(self.failed_on(name, error)),
        }
    }

    fn read(&mut self, into: &mut [u8]) -> Result<usize, Failed> {
        match self.read_source(into) {
            Ok(count) => Ok(count),
            Err(error) => Err(self.failed(None, error)),
        }
    }

    fn has_folder(&mut self, name: &str) -> Result<bool, Failed> {
        match has_folder(&self.rt, name) {
            Ok(there) => Ok(there),
            Err(error) => Err(self.failed_on(name, error)),
        }
    }

    fn is_same(&mut self, one: &str, other: &str) -> Result<bool, Failed> {
        match is_same(&self.rt, one, other) {
            Ok(same) => Ok(same),
            Err(error) => Err(self.failed_on(one, error)),
        }
    }

    fn begin(&mut self, name: &str, over: bool) -> Result<bool, Failed> {
        match Written::begin(&self.rt, self.alloc, name, over) {
            Ok(Some(draft)) => {
                self.discard();
                self.draft = Some(draft);
                Ok(true)
            }
            Ok(None) => Ok(false),
            Err(error) => Err(self.failed_on(name, error)),
        }
    }

    fn write(&mut self, from: &[u8]) -> Result<(), Failed> {
        let written = match &mut self.draft {
            Some(draft) => draft.write(from),
            None => Err(io::Error::other("no file is begun")),
        };
        match written {
            Ok(()) => Ok(()),
            Err(error) => {
                let file = self.begun();
                Err(self.failed(file, error))
            }
        }
    }

    fn keep(&mut self) -> Result<bool, Failed> {
        let file = self.begun();
        let kept = match self.draft.take() {
            Some(draft) => self.name_draft(draft),
            None => Err(io::Error::other("no file is begun")),
        };
        match kept {
            Ok(named) => Ok(named),
            Err(error) => Err(self.failed(file, error)),
        }
    }

    fn discard(&mut self) {
        if let Some(draft) = self.draft.take() {
            draft.discard(&self.rt);
        }
    }

    fn note(&mut self, note: Note) -> Result<(), Failed> {
        if let Refusal::ImageFailed = note.refusal {
            self.image = Some(note.word);
            return Ok(());
        }
        let told = match (&self.trouble, note.refusal) {
            (Some(trouble), Refusal::HostFailed) => tell_trouble(&self.rt, &note, trouble),
            _ => tell(&self.rt, &note),
        };
        match told {
            Ok(()) => Ok(()),
            Err(error) => Err(self.failed(None, error)),
        }
    }
}
