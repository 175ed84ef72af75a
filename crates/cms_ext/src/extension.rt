// What a session and an extension say to each other.
ghost use Rattle.cms_model.specs.Objects.{Content, Test};
ghost use Rattle.cms_ext.specs.Replies.{Answers};

use crate::records::Records;
use cms_names::Name;
use cms_text::{Line, Lines};
use std::alloc::{AllocError, Global};

/// What an extension is told.
#[derive(Drop)]
pub enum ExtReply {
    /// the line of its word, whole
    Start(Line),
    /// a text that a procedure sends to it
    Sub(Line),
    /// what it wanted is done
    Went,
    /// the line that it asked for
    Got(Line),
    /// the records of the file that it wanted
    File(Records),
    /// what it wanted was refused: the message was typed, and this is its code
    Refused(i32),
}

/// What an extension wants.
#[derive(Drop)]
pub enum ExtWant {
    /// lines are typed
    Say(Lines),
    /// a line: the next that is stacked, or the console's next
    Ask,
    /// the records of the file of a name that is found by a letter, A is 0
    Get(Name, u8),
    /// these records become the file of a name on the disk of a letter, A is 0; there is one at least
    Put(Name, u8, Records),
    /// no more: its return code, -9999 to 99999
    Done(i32),
}

/// An object that answers the lines of its word.
pub trait Extension: Drop {
    /// what the object holds, as lines
    ghost content: { Self → Content };

    /// whether it may go from a content by a want to a content, being told a reply
    ghost does: { Test };

    /// What it wants, being told this. Without memory it stays as it was.
    fn turn(&mut self, alloc: Global, reply: &ExtReply) -> Result<ExtWant, AllocError>
        ensures { Answers does (content self.old) reply.now (content self.new) result };
}
