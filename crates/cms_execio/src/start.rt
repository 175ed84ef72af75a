// Where DISKR begins to hand out records of a file, and the reading that its disk keeps then.
ghost use Rattle.std.specs.Prelude.{◌≡◌, ◌≤◌, None, IfSome, IsSome, length};
ghost use Rattle.std.specs.Option.{ForSome};
ghost use Rattle.cms_disk.specs.Cursors.{IsUnread, block_behind};
ghost use Rattle.cms_names.specs.declared.name.Format.TheVariants.{F};
ghost use Rattle.cms_search.specs.Searches.{item_at};
ghost use Rattle.cms_search.specs.Tables.{IsReadingOf};
ghost use Rattle.cms_execio.specs.Starts.{IsPast, reading_behind, table_behind};

use cms_disk::Cursor;
use cms_names::{Format, Name};
use cms_search::{AccessTable, KeptReading};

/// A file that is read from some record on.
#[derive(Drop)]
pub struct Start {
    pub cursor: Cursor,
    /// how many records are behind it
    pub behind: u32,
}

// Passes over the records in front of those that are stacked, where all of the file have one length: none of their blocks is read, but that
// in which the first of those begins. Says how many it passed over.
fn pass_front(cursor: &mut Cursor, format: Format, front: u32) -> u32
    requires unread { format ≡ F → IsUnread cursor.old }
    requires few { front ≤ cursor.old.left }
    ensures past { IsPast result cursor.old cursor.new }
    ensures few { result ≤ front }
    ensures blocks { format ≡ F → cursor.new.done
        ≡ block_behind front cursor.old.begun.longest cursor.old.bsize (length cursor.old.leaves) }
{
    match format {
        Format::F => {
            cursor.skip(front);
            front
        }
        Format::V => 0,
    }
}

/// Where a file is read from that was opened, so that the record behind so many is handed out: a cursor that was kept there goes on; else
/// the records in front are passed over, where all of the file have one length.
pub fn start_at(kept: Option<Cursor>, opened: Cursor, format: Format, front: u32) -> Start
    requires unread { format ≡ F → IsUnread opened }
    requires few { front ≤ opened.left }
    ensures kept { IfSome kept (λ c. result ≡ record { cursor = c; behind = front }) }
    ensures past { kept ≡ None → IsPast result.behind opened result.cursor }
    ensures few { result.behind ≤ front }
    ensures blocks { kept ≡ None → format ≡ F → result.cursor.done
        ≡ block_behind front opened.begun.longest opened.bsize (length opened.leaves) }
{
    match kept {
        Some(cursor) => {
            drop(opened);
            Start {
                cursor,
                behind: front,
            }
        }
        None => {
            let mut cursor = opened;
            let behind = pass_front(&mut cursor, format, front);
            Start { cursor, behind }
        }
    }
}

/// The disk of an accessed letter keeps the reading of the file of a name, which stands behind so
/// many records; or the cursor is dropped.
pub fn keep_behind(
    table: &mut AccessTable,
    letter: u8,
    name: &Name,
    count: u32,
    drops: bool,
    cursor: Cursor,
)
    requires accessed { IsSome (item_at table.old.seats letter) }
    requires sound { ForSome (item_at table.old.seats letter)
        (λ s. IsReadingOf s.disk (reading_behind name.now count cursor)) }
    ensures { table.new ≡ table_behind table.old letter name.now count drops cursor }
{
    if drops {
        drop(cursor);
        return;
    }
    let name = *name;
    table.keep_reading(
        letter,
        KeptReading {
            name,
            count,
            cursor,
        },
    );
}
