// Host files in memory.
ghost use Rattle.std.specs.Prelude.{◌≡◌, ◌≤◌, ◌<◌, ◌+◌, ◌++◌, ◌∷◌, [], true, false, not, length, take, is_some, IsSome, None, OnOk, OnErr, IfOk};
ghost use Rattle.std.specs.Option.{ForSome, option_map};
ghost use Rattle.std.specs.List.{list_any};
ghost use Rattle.std.specs.Str.{bytes_eq};
ghost use Rattle.cms_journal.specs.Causes.{HasCause};
ghost use Rattle.mini_host.specs.Files.{begun, content_of, drafted, is_folder, is_taken, kept, noted, opened, read_on, with_more, written};

use crate::content::{Content, Draft, HostFile};
use crate::plan::{Plan, counted};
use crate::source::Source;
use crate::{Failed, Host, Note};
use cms_text::Series;
use cms_world::ImageName;
use std::alloc::{AllocError, Global};

/// A host whose files are in memory, for tests. It tells them, and never fails but where it is told to or finds no memory.
#[derive(Drop)]
pub struct MemHost {
    alloc: Global,
    files: Vec<HostFile>,
    folders: Series<ImageName>,
    left: Option<Source>,
    draft: Option<Draft>,
    notes: Series<Note>,
    plan: Plan,
    faults: u64,
}

impl MemHost {
    ghost use Rattle.mini_host.specs.Memory.{files_of, faults_of, calls_of, failing_of};

    /// A host with no files and no folders.
    pub fn new(alloc: Global) -> MemHost
        ensures files { files_of result
            ≡ record { files = []; folders = []; left = None; draft = None; notes = [] } }
        ensures faults { faults_of result ≡ 0 }
        ensures calls { calls_of result ≡ 0 }
        ensures failing { failing_of result ≡ [] }
    {
        MemHost {
            alloc,
            files: Vec::new(alloc),
            folders: Series::new(alloc),
            left: None,
            draft: None,
            notes: Series::new(alloc),
            plan: Plan::new(alloc),
            faults: 0,
        }
    }

    /// Gives a file; one of that name holds this from now on.
    pub fn add_file(&mut self, name: &str, bytes: &[u8]) -> Result<(), AllocError>
        ensures given { OnOk result (files_of self.new ≡ record (files_of self.old) {
          files = (files_of self.old).files ++ record { name = name.now; content = bytes.now } ∷ [];
        }) }
        ensures err { OnErr result (files_of self.new ≡ files_of self.old) }
        ensures faults { faults_of self.new ≡ faults_of self.old }
        ensures calls { calls_of self.new ≡ calls_of self.old }
        ensures failing { failing_of self.new ≡ failing_of self.old }
    {
        self.files.reserve(1)?;
        self.files
            .push_reserved(HostFile::of(self.alloc, name, bytes)?);
        Ok(())
    }

    /// Gives a folder.
    pub fn add_folder(&mut self, name: &str) -> Result<(), AllocError>
        ensures given { OnOk result (files_of self.new
            ≡ record (files_of self.old) {
              folders = (files_of self.old).folders ++ name.now
                  ∷ [];
            }) }
        ensures err { OnErr result (files_of self.new ≡ files_of self.old) }
        ensures faults { faults_of self.new ≡ faults_of self.old }
        ensures calls { calls_of self.new ≡ calls_of self.old }
        ensures failing { failing_of self.new ≡ failing_of self.old }
    {
        self.folders.push(ImageName::of(self.alloc, name)?)
    }

    /// Plans that the call with this number fails, counted from 1 over all calls of the trait but `discard`.
    pub fn fail_at(&mut self, call: u64) -> Result<(), AllocError>
        ensures planned { OnOk result (failing_of self.new ≡ failing_of self.old ++ call ∷ []) }
        ensures err { OnErr result (failing_of self.new ≡ failing_of self.old) }
        ensures files { files_of self.new ≡ files_of self.old }
        ensures faults { faults_of self.new ≡ faults_of self.old }
        ensures calls { calls_of self.new ≡ calls_of self.old }
    {
        self.plan.fail_at(call)
    }

    /// What the file of a name holds, where there is one.
    pub fn file(&self, name: &str) -> Option<&[u8]>
        ensures { option_map (λ bytes. bytes.now) result
            ≡ content_of name.now (files_of self.now).files }
    {
        match content(&self.files, name) {
            Some(content) => Some(content.bytes()),
            None => None,
        }
    }

    /// What was said, in order.
    pub fn notes(&self) -> &[Note]
        ensures { result.now ≡ (files_of self.now).notes }
    {
        self.notes.as_slice()
    }

    /// How often the trait's calls were made, `discard` apart.
    pub fn calls(&self) -> u64
        ensures { result ≡ calls_of self.now }
    {
        self.plan.calls
    }
}

// What the file of a name holds: that which came last.
#[tactic(auto, unfolding(crate::specs::Files::content_of))]
fn content<'a>(files: &'a [HostFile], name: &str) -> Option<&'a Content>
    ensures { option_map (λ content. content.now) result ≡ content_of name.now files.now }
{
    files
        .iter()
        .rev()
        .find(|file| file.name.text() == name)
        .map(|file| &file.content)
}

// What the file of a name holds, to be read from its first byte.
fn source(alloc: Global, files: &[HostFile], name: &str) -> Result<Option<Source>, AllocError>
    ensures { IfOk result (λ source. source ≡ content_of name.now files.now) }
{
    match content(files, name) {
        Some(content) => Ok(Some(Source::of(alloc, content.bytes())?)),
        None => Ok(None),
    }
}

// Whether there is a file under a name where none may be put.
fn is_taken(files: &[HostFile], name: &str, over: bool) -> bool
    ensures { result ≡ is_taken name.now over files.now }
{
    !over && content(files, name).is_some()
}

// Whether a folder has this name.
fn is_folder(folders: &[ImageName], name: &str) -> bool
    ensures { result ≡ list_any (λ folder. bytes_eq folder name.now) folders.now }
{
    folders.iter().any(|folder| folder.text() == name)
}

// Adds bytes behind those of the file that is begun, and says whether they are there: there is no memory, or no file is begun.
fn append(draft: &mut Option<Draft>, from: &[u8]) -> bool
    ensures added { result ≡ true → draft.new ≡ option_map (with_more from.now) draft.old }
    ensures kept { result ≡ false → draft.new ≡ draft.old }
{
    match draft {
        Some(draft) => draft.file.content.append(from).is_ok(),
        None => false,
    }
}

impl Host for MemHost {
    ghost use Rattle.mini_host.specs.Memory.{IsCalled, IsUncalled, faults_of, rest_of, told_of};

    ghost faults = { faults_of };

    ghost told = { told_of };

    ghost rest = { rest_of };

    fn open(&mut self, name: &str) -> Result<bool, Failed>
        ensures there { IfOk result (λ there. ForSome (told_of self.old)
            (λ f. there ≡ is_some (content_of name.now f.files))) }
        ensures opened { OnOk result (told_of self.new
            ≡ option_map (opened name.now) (told_of self.old)) }
        ensures failed { OnErr result (told_of self.new ≡ told_of self.old) }
        ensures cause { HasCause (faults_of self.old) (faults_of self.new) result }

        ensures called { IsCalled self.old self.new result }
    {
        if self.plan.goes()
            && let Ok(left) = source(self.alloc, &self.files, name)
        {
            let there = left.is_some();
            self.left = left;
            return Ok(there);
        }
        Err(counted(&mut self.faults))
    }

    fn read(&mut self, into: &mut [u8]) -> Result<usize, Failed>
        requires some { 0 < length into.old }
        requires opened { ForSome (told_of self.old) (λ f. IsSome f.left) }
        ensures within { IfOk result (λ n. n ≤ length into.old) }
        ensures bytes { IfOk result (λ n. ForSome (told_of self.old)
            (λ f. ForSome f.left (λ left. take n into.new ≡ take n left))) }
        ensures all { IfOk result (λ n. ForSome (told_of self.old)
            (λ f. ForSome f.left (λ left. (n ≤ length left) × (n ≡ 0 → length left ≡ 0)))) }
        ensures told { IfOk result (λ n. told_of self.new
            ≡ option_map (read_on n) (told_of self.old)) }
        ensures rest { IfOk result (λ n. rest_of self.new + n ≤ rest_of self.old) }
        ensures failed { OnErr result (told_of self.new ≡ told_of self.old) }
        ensures cause { HasCause (faults_of self.old) (faults_of self.new) result }

        ensures called { IsCalled self.old self.new result }
    {
        if self.plan.goes()
            && let Some(source) = &mut self.left
        {
            return Ok(source.read(into));
        }
        Err(counted(&mut self.faults))
    }

    #[tactic(auto, unfolding(crate::specs::Files::is_folder))]
    fn has_folder(&mut self, name: &str) -> Result<bool, Failed>
        ensures folder { IfOk result (λ there. ForSome (told_of self.old)
            (λ f. there ≡ is_folder name.now f)) }
        ensures told { told_of self.new ≡ told_of self.old }
        ensures cause { HasCause (faults_of self.old) (faults_of self.new) result }

        ensures called { IsCalled self.old self.new result }
    {
        if !self.plan.goes() {
            return Err(counted(&mut self.faults));
        }
        Ok(is_folder(self.folders.as_slice(), name))
    }

    fn is_same(&mut self, one: &str, other: &str) -> Result<bool, Failed>
        ensures same { IfOk result (λ same. ForSome (told_of self.old)
            (λ f. same ≡ bytes_eq one.now other.now)) }
        ensures told { told_of self.new ≡ told_of self.old }
        ensures cause { HasCause (faults_of self.old) (faults_of self.new) result }

        ensures called { IsCalled self.old self.new result }
    {
        if !self.plan.goes() {
            return Err(counted(&mut self.faults));
        }
        Ok(one == other)
    }

    fn begin(&mut self, name: &str, over: bool) -> Result<bool, Failed>
        ensures may { IfOk result (λ may. ForSome (told_of self.old)
            (λ f. may ≡ not (is_taken name.now over f.files))) }
        ensures begun { IfOk result (λ may. may ≡ true
            → told_of self.new ≡ option_map (begun name.now over) (told_of self.old)) }
        ensures refused { IfOk result (λ may. may ≡ false → told_of self.new ≡ told_of self.old) }
        ensures failed { OnErr result (told_of self.new ≡ told_of self.old) }
        ensures cause { HasCause (faults_of self.old) (faults_of self.new) result }

        ensures called { IsCalled self.old self.new result }
    {
        if !self.plan.goes() {
            return Err(counted(&mut self.faults));
        }
        if is_taken(&self.files, name, over) {
            return Ok(false);
        }
        match Draft::new(self.alloc, name, over) {
            Ok(draft) => {
                self.draft = Some(draft);
                Ok(true)
            }
            Err(_) => Err(counted(&mut self.faults)),
        }
    }

    fn write(&mut self, from: &[u8]) -> Result<(), Failed>
        requires { ForSome (told_of self.old) (λ f. IsSome f.draft) }
        ensures wrote { OnOk result (told_of self.new
            ≡ option_map (written from.now) (told_of self.old)) }
        ensures failed { OnErr result (told_of self.new ≡ told_of self.old) }
        ensures cause { HasCause (faults_of self.old) (faults_of self.new) result }

        ensures called { IsCalled self.old self.new result }
    {
        if self.plan.goes() && append(&mut self.draft, from) {
            return Ok(());
        }
        Err(counted(&mut self.faults))
    }

    fn keep(&mut self) -> Result<bool, Failed>
        requires { ForSome (told_of self.old) (λ f. IsSome f.draft) }
        ensures has_it { IfOk result (λ has_it. ForSome (told_of self.old) (λ f. has_it ≡ true)) }
        ensures kept { IfOk result (λ has_it. told_of self.new
            ≡ option_map kept (told_of self.old)) }
        ensures failed { OnErr result (told_of self.new ≡ told_of self.old) }
        ensures cause { HasCause (faults_of self.old) (faults_of self.new) result }

        ensures called { IsCalled self.old self.new result }
    {
        if self.plan.goes()
            && let Ok(()) = self.files.reserve(1)
            && let Some(draft) = self.draft.take()
        {
            self.files.push_reserved(draft.file);
            return Ok(true);
        }
        Err(counted(&mut self.faults))
    }

    fn discard(&mut self)
        ensures told { told_of self.new ≡ option_map (drafted None) (told_of self.old) }
        ensures faults { faults_of self.new ≡ faults_of self.old }

        ensures called { IsUncalled self.old self.new }
    {
        self.draft = None;
    }

    fn note(&mut self, note: Note) -> Result<(), Failed>
        ensures noted { OnOk result (told_of self.new
            ≡ option_map (noted note) (told_of self.old)) }
        ensures failed { OnErr result (told_of self.new ≡ told_of self.old) }
        ensures cause { HasCause (faults_of self.old) (faults_of self.new) result }

        ensures called { IsCalled self.old self.new result }
    {
        if self.plan.goes() && self.notes.push(note).is_ok() {
            return Ok(());
        }
        Err(counted(&mut self.faults))
    }
}
