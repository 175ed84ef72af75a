// A procedure is read, and begins.
ghost use Rattle.std.specs.Prelude.{◌≡◌};
ghost use Rattle.cms_exec.specs.Refused.{with_refused};
ghost use Rattle.cms_model.specs.Records.{IsValid};
ghost use Rattle.cms_records.specs.Stored.{records_in};
ghost use Rattle.cms_search.specs.Calls.{Acts, IsUsable, machine_of, spot};
ghost use Rattle.cms_world.specs.Seen.{seen};
ghost use Rattle.exec2_parse.specs.Procedures.{procedure_of};
ghost use Rattle.cms_exec.specs.Exec as spec;
ghost use Rattle.cms_exec.specs.Searches.{IsThere};

use crate::refusals::{reason_of, refuse_no_procedure, refuse_not_run};
use crate::search::FoundProcedure;
use cms_disk::{DiskFault, FileData};
use cms_line::Line;
use cms_search::{Course, End, State, refuse_limit, refuse_unread};
use cms_world::World;
use exec2_parse::{ProcFault, read_procedure};
use exec2_run::{Exec, FileName};
use std::alloc::Global;

/// What a call of a procedure comes to.
#[derive(Drop)]
pub enum Started {
    /// it has begun, before its first statement
    Begun(Exec),
    /// it was refused, and the command ended so
    Refused(Course),
}

/// A call that was refused.
pub fn refused(course: Result<Course, End>) -> Result<Started, End>
    ensures { result ≡ with_refused course }
{
    match course {
        Ok(course) => Ok(Started::Refused(course)),
        Err(end) => Err(end),
    }
}

/// How many procedures may run at a time.
pub const MOST_RUNNING: usize = 50;

/// The number of that limit.
const RUNNING_LIMIT: u32 = 5;

// The procedure in the data of a file begins.
fn begin<W: World>(
    alloc: Global,
    world: &mut W,
    state: &State,
    called: &Line,
    found: &FileName,
    file: &FileData,
) -> Result<Started, End>
    requires valid { IsValid file.now }
    ensures { Acts (spot W.World world.old state.now) (spot W.World world.new state.now)
        (λ units. spec.beginning (machine_of state.now units) called.now found.now
        (procedure_of (records_in file.now)))
        result (spec.started_of state.now) }
{
    match read_procedure(alloc, file) {
        Ok(procedure) => Ok(Started::Begun(Exec::start(alloc, procedure, called, found)?)),
        Err(fault) => match fault {
            ProcFault::Memory => Err(End::Memory),
            _ => refused(refuse_not_run(alloc, world, &found.name.file, reason_of(fault))),
        },
    }
}

// The file of a procedure is read, and the procedure in it begins.
fn read_found<W: World>(
    alloc: Global,
    world: &mut W,
    state: &State,
    called: &Line,
    found: &FoundProcedure,
) -> Result<Started, End>
    requires usable { IsUsable (spot W.World world.old state.now) }
    requires there { IsThere state.now.table found.now }
    ensures { Acts (spot W.World world.old state.now) (spot W.World world.new state.now)
        (λ units. spec.read_there (machine_of state.now units) called.now found.now.file) result
        (spec.started_of state.now) }
{
    let vdev = state.table.vdev(found.file.letter);
    let Some(disk) = state.table.disk(found.file.letter) else {
        return refused(refuse_no_procedure(alloc, world, &found.file.name.file));
    };
    match disk.get_at(alloc, world, found.place) {
        Ok(file) => begin(alloc, world, state, called, &found.file, &file),
        Err(fault) => match fault {
            DiskFault::Device | DiskFault::Altered => {
                refused(refuse_unread(alloc, world, vdev, fault))
            }
            // the file is there, so this is want of memory
            _ => Err(End::Memory),
        },
    }
}

/// A procedure that was found begins, called by a line, which goes from its name on, where so many run: it is refused where they are as
/// many as may run, where the device fails, and where the file is no procedure that can be run.
pub fn start<W: World>(
    alloc: Global,
    world: &mut W,
    state: &State,
    called: &Line,
    found: &FoundProcedure,
    running: usize,
) -> Result<Started, End>
    requires usable { IsUsable (spot W.World world.old state.now) }
    requires there { IsThere state.now.table found.now }
    ensures { Acts (spot W.World world.old state.now) (spot W.World world.new state.now)
        (λ units. spec.starting running (machine_of state.now units) called.now found.now.file) result
        (spec.started_of state.now) }
{
    if running >= MOST_RUNNING {
        return refused(refuse_limit(alloc, world, RUNNING_LIMIT));
    }
    read_found(alloc, world, state, called, found)
}
