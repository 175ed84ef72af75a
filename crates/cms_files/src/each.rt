// Files that are updated one after another.
ghost use Rattle.std.specs.Prelude.{◌≡◌, ◌≤◌, true, All};
ghost use Rattle.cms_fields.specs.Moments.{is_moment};
ghost use Rattle.cms_search.specs.Calls.{Acts, IsUsable, course_of, machine_of, spot};
ghost use Rattle.cms_search.specs.DeviceSteps.{Stepped};
ghost use Rattle.cms_search.specs.Machine.{Machine};
ghost use Rattle.cms_search.specs.Searches as searches;
ghost use Rattle.cms_model.specs.Acts.{Act};
ghost use Rattle.cms_files.specs.Updates.{updated_of, updating_each, updating_taken};

use crate::identifier::NameChoice;
use crate::refusals::refuse_unfound;
use crate::taken::{Listed, files_written};
use crate::update::Updated;
use cms_line::Tokens;
use cms_operands::WriteMode;
use cms_search::{Course, End, State};
use cms_world::World;
use std::alloc::Global;

/// What a command does to each of some files, by one update a file.
pub trait FileUpdate<F> {
    /// what it does to a file, on a machine
    ghost tree: { Self → Machine → F → Act Stepped };

    /// what is asked of a file
    ghost takes: { Self → F → Type 0 };

    /// Updates a file. Where that is refused or fails its message is typed, and the command ends.
    fn update<W: World>(
        &self,
        alloc: Global,
        world: &mut W,
        state: &mut State,
        file: &F,
    ) -> Result<Updated, End>
        requires usable { IsUsable (spot W.World world.old state.old) }
        requires moment { is_moment state.old.moment ≡ true }
        requires takes { takes self.now file.now }
        ensures acts { Acts (spot W.World world.old state.old) (spot W.World world.new state.new)
            (λ units. tree self.now (machine_of state.old units) file.now) result
            (updated_of state.new) }
        ensures kept { state.new ≡ record state.old {
          table = state.new.table;
          places = state.new.places;
        } };
}

/// Files are updated one after another, until one is refused.
pub fn update_each<W: World, F, U: FileUpdate<F>>(
    alloc: Global,
    world: &mut W,
    state: &mut State,
    update: &U,
    files: &[F],
) -> Result<Course, End>
    requires usable { IsUsable (spot W.World world.old state.old) }
    requires moment { is_moment state.old.moment ≡ true }
    requires takes { All (U.takes update.now) files.now }
    ensures acts { Acts (spot W.World world.old state.old) (spot W.World world.new state.new)
        (λ units. updating_each (U.tree update.now) files.now (machine_of state.old units)) result
        (course_of state.new) }
    ensures kept { state.new ≡ record state.old {
      table = state.new.table;
      places = state.new.places;
    } }
{
    for file in files {
        match update.update(alloc, world, state, file)? {
            Updated::Done => {}
            Updated::Stopped(course) => return Ok(course),
        }
    }
    Ok(Course::Went(0))
}

/// The files of a disk that a choice of names and a mode mean, which are the words of a line from its first operand on, are updated one
/// after another in the directory's order, until one is refused. Refused before are a disk that isn't accessed or may only be read, and
/// names that no file has.
pub fn update_taken<W: World, U: FileUpdate<Listed>>(
    alloc: Global,
    world: &mut W,
    state: &mut State,
    words: &Tokens,
    names: &NameChoice,
    mode: &WriteMode,
    update: &U,
) -> Result<Course, End>
    requires usable { IsUsable (spot W.World world.old state.old) }
    requires moment { is_moment state.old.moment ≡ true }
    requires takes { (f : searches.Listed) → f.number ≤ 6 → U.takes update.now f }
    ensures acts { Acts (spot W.World world.old state.old) (spot W.World world.new state.new)
        (λ units. updating_taken (machine_of state.old units) words.now names.now mode.now
        (U.tree update.now))
        result (course_of state.new) }
    ensures kept { state.new ≡ record state.old {
      table = state.new.table;
      places = state.new.places;
    } }
{
    match files_written(alloc, &state.table, names, mode) {
        Ok(files) => update_each(alloc, world, state, update, files.as_slice()),
        Err(fault) => refuse_unfound(alloc, world, words, 1, fault),
    }
}
