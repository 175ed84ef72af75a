// Why a procedure isn't run.
ghost use Rattle.std.specs.Prelude.{◌≡◌, ◌+◌, ◌≤◌, IfOk, codes, pos};
ghost use Rattle.cms_line.specs.Messages.{message_text};
ghost use Rattle.cms_line.specs.declared.message.Message.TheVariants.{M002, M086};
ghost use Rattle.cms_model.specs.Acts.{saying, typed_line};
ghost use Rattle.cms_search.specs.Calls.{Does, said};
ghost use Rattle.cms_search.specs.declared.state.Course.TheVariants.{Went};
ghost use Rattle.cms_text.specs.Numbers.{decimal_of};
ghost use Rattle.cms_text.specs.Texts.{coded};
ghost use Rattle.cms_world.specs.Seen.{seen};
ghost use Rattle.cms_files.specs.Files.{no_file_code};
ghost use Rattle.cms_files.specs.Identifiers.{exec_kind};
ghost use Rattle.cms_exec.specs.Exec.{not_run_code, reason_of};

use cms_files::{NO_FILE, exec_kind};
use cms_line::{Message, Word};
use cms_names::Part;
use cms_operands::coded;
use cms_search::{Course, End, refuse};
use cms_text::decimal;
use cms_world::World;
use exec2_parse::ProcFault;
use std::alloc::{AllocError, Global};

/// The code of a procedure that isn't run, to which the reason's number is added.
const NOT_RUN: u32 = 10_100;

/// Why a file isn't run, by its number; want of memory is never told.
pub fn reason_of(fault: ProcFault) -> u32
    ensures number { result ≡ reason_of fault }
    ensures small { result ≤ 3 }
{
    match fault {
        ProcFault::NotExec2 => 1,
        ProcFault::LineTooLong(_) => 2,
        ProcFault::TooManyLines => 3,
        ProcFault::Memory => 0,
    }
}

fn missing(alloc: Global, file: &Part) -> Result<Message, AllocError>
    ensures { IfOk result (λ message. message ≡ M002 file.now exec_kind (coded (codes "*"))) }
{
    Ok(Message::M002(
        Word::of(alloc, file.as_bytes())?,
        Word::of(alloc, exec_kind().as_bytes())?,
        Word::of(alloc, &coded(b"*"))?,
    ))
}

/// Types that no disk has the procedure of a name, and gives the code.
pub fn refuse_no_procedure<W: World>(
    alloc: Global,
    world: &mut W,
    file: &Part,
) -> Result<Course, End>
    ensures does { Does (seen W.World world.old) (seen W.World world.new)
        (saying (typed_line (message_text (M002 file.now exec_kind (coded (codes "*")))))) result
        said }
    ensures went { IfOk result (λ course. course ≡ Went (pos no_file_code)) }
{
    let message = missing(alloc, file)?;
    refuse(alloc, world, message, NO_FILE)
}

fn not_run(alloc: Global, file: &Part, reason: u32) -> Result<Message, AllocError>
    ensures { IfOk result (λ message. message ≡ M086 file.now (decimal_of reason)) }
{
    Ok(Message::M086(Word::of(alloc, file.as_bytes())?, decimal(alloc, reason)?))
}

/// Types why the file of a procedure isn't run, and gives the code.
pub fn refuse_not_run<W: World>(
    alloc: Global,
    world: &mut W,
    file: &Part,
    reason: u32,
) -> Result<Course, End>
    requires { reason ≤ 3 }
    ensures does { Does (seen W.World world.old) (seen W.World world.new)
        (saying (typed_line (message_text (M086 file.now (decimal_of reason))))) result said }
    ensures went { IfOk result (λ course. course ≡ Went (pos (not_run_code + reason))) }
{
    let message = not_run(alloc, file, reason)?;
    refuse(alloc, world, message, (NOT_RUN + reason) as i32)
}
