// Records that are read of a host file, byte by byte.
ghost use Rattle.std.specs.Prelude.{◌≡◌, ◌≤◌, ◌<◌, true, false, length, IfOk};
ghost use Rattle.cms_fields.specs.Limits.{longest_record};
ghost use Rattle.cms_records.specs.Views.{fitted};
ghost use Rattle.mini_forms.specs.RecordReads.{Gives, Skips, SkipsFront, begun, block_fed, counted, ended, ends, fed, finished, line_fed, number, record_of, size_in, start_of, stored_fed, unread};
ghost use Rattle.mini_forms.specs.Readers.{IsLength, IsSize};
ghost use Rattle.mini_forms.specs.declared.place.Head.TheVariants.{High, Left};
ghost use Rattle.mini_forms.specs.declared.place.Place.TheVariants.{Line, Block, Stored};
ghost use Rattle.mini_forms.specs.declared.step.Begun.TheVariants.{Fresh};
ghost use Rattle.mini_forms.specs.declared.step.Step.TheVariants.{Adds};

use crate::form::{FormFault, Layout};
use crate::page::code_of;
use crate::place::{Head, Place, is_length, longest_at, start_of, stored_size};
use crate::run::{put_codes, simple_front};
use crate::step::{Begun, Step, step_of};
use cms_fields::{MOST_BYTES, MOST_RECORDS};
use cms_text::BLANK;
use std::alloc::{AllocError, Global};
use std::marker::Model;

/// A host file that is read byte by byte. It holds no more than one record, for which it takes the room when it is made.
#[derive(Drop)]
pub struct Reader {
    place: Place,
    bytes: Vec<u8>,
    whole: bool,
    count: u32,
    stored: u32,
}

impl Model for Reader {
    ghost use Rattle.mini_forms.specs.RecordReads as reads;
    ghost use Rattle.mini_forms.specs.Readers.{AreSound};

    ghost Value = { reads.Reader };

    ghost view = { λ r. record { place = r.place; bytes = r.bytes.items; whole = r.whole; count = r.count; stored = r.stored } };

    ghost invariant = { AreSound };
}

impl Reader {
    /// Before the first byte of a host file with this layout, whose size is 1 to 65,535 where it has one.
    pub fn new(alloc: Global, layout: Layout) -> Result<Reader, AllocError>
        requires { IsSize (size_in (start_of layout)) }
        ensures { IfOk result (λ reader. reader ≡ unread layout) }
    {
        let place = start_of(layout);
        let bytes = Vec::with_capacity(alloc, longest_at(place) as usize)?;
        Ok(Reader {
            place,
            bytes,
            whole: false,
            count: 0,
            stored: 0,
        })
    }

    /// Takes the next byte, and says whether a record is whole with it. After a fault the reader isn't used again. It takes no
    /// memory.
    pub fn feed(&mut self, byte: u8) -> Result<bool, FormFault>
        ensures { Gives result self.new (fed self.old byte) }
    {
        self.begin();
        match self.place {
            Place::Line(size, before) => self.feed_line(size, step_of(before, byte)),
            Place::Block(size) => self.feed_block(size, byte),
            Place::Stored(size, head) => self.feed_stored(size, head, byte),
        }
    }

    /// Takes bytes from a place on that only go on with the record that is begun, and never the last of all; says the place behind them.
    /// It takes no memory.
    pub fn skip(&mut self, bytes: &[u8], from: usize) -> usize
        requires { from < length bytes.now }
        ensures { Skips self.old self.new bytes.now from result }
    {
        self.begin();
        from + self.skip_front(&bytes[from..])
    }

    /// The host file ends here: says whether a last record is whole. `Empty` where there was none at all. It takes no memory.
    #[tactic(auto, unfolding(crate::specs::RecordReads::ended_at))]
    pub fn end(&mut self) -> Result<bool, FormFault>
        ensures { Gives result self.new (ended self.old) }
    {
        self.begin();
        match self.place {
            Place::Line(_, Begun::LowHalf | Begun::HighHalf) => {
                Err(FormFault::BadCharacter(self.number()))
            }
            Place::Line(_, Begun::Return) => Err(FormFault::CarriageReturn(self.number())),
            Place::Stored(_, Head::High(_) | Head::Left(_)) => Err(FormFault::Cut(self.number())),
            _ if self.bytes.is_empty() => self.end_between(),
            Place::Line(size, Begun::Fresh) => self.end_line(size),
            Place::Block(size) => self.fill_block(size),
            Place::Stored(_, Head::Start) => self.end_between(),
        }
    }

    /// The record that is whole.
    pub fn record(&self) -> &[u8]
        requires { self.now.whole ≡ true }
        ensures bytes { result.now ≡ self.now.bytes }
        ensures length { IsLength (size_in self.now.place) (length result.now) }
        ensures short { length result.now ≤ longest_record }
    {
        &self.bytes
    }

    // Behind a whole record the next one begins.
    fn begin(&mut self)
        ensures { self.new ≡ begun self.old }
    {
        if self.whole {
            self.bytes.clear();
            self.whole = false;
        }
    }

    // The number of the record that is begun.
    fn number(&self) -> u32
        ensures { result ≡ number self.now }
    {
        self.count + 1
    }

    // The record that is whole now is one more, if the limits of a file allow it.
    fn count_record(&mut self) -> Result<bool, FormFault>
        requires { self.old.whole ≡ true }
        ensures { Gives result self.new (counted self.old) }
    {
        let stored = self.stored + stored_size(self.place, self.bytes.len() as u32);
        if self.count >= MOST_RECORDS || stored > MOST_BYTES {
            return Err(FormFault::TooLarge);
        }
        self.count += 1;
        self.stored = stored;
        Ok(true)
    }

    #[tactic(auto, unfolding(crate::specs::RecordReads::line_fed))]
    fn feed_line(&mut self, size: Option<u32>, step: Step) -> Result<bool, FormFault>
        requires size { size_in self.old.place ≡ size }
        requires begun { self.old.whole ≡ false }
        ensures { Gives result self.new (line_fed size step self.old) }
    {
        match step {
            Step::Adds(character) => self.add_character(size, character),
            Step::Goes(begun) => {
                self.place = Place::Line(size, begun);
                Ok(false)
            }
            Step::Ends => self.end_line(size),
            Step::NoCharacter => Err(FormFault::BadCharacter(self.number())),
            Step::LoneReturn => Err(FormFault::CarriageReturn(self.number())),
        }
    }

    #[tactic(auto, unfolding(crate::specs::RecordReads::line_fed))]
    fn add_character(&mut self, size: Option<u32>, character: u8) -> Result<bool, FormFault>
        requires size { size_in self.old.place ≡ size }
        requires begun { self.old.whole ≡ false }
        ensures { Gives result self.new (line_fed size (Adds character) self.old) }
    {
        if self.bytes.len() >= longest_at(self.place) as usize {
            return Err(FormFault::LongLine(self.number()));
        }
        self.bytes.push_reserved(code_of(character));
        self.place = Place::Line(size, Begun::Fresh);
        Ok(false)
    }

    // A line's record is whole: filled with blanks to the size, and one blank where it would be empty.
    #[tactic(auto, unfolding(crate::specs::RecordReads::record_of))]
    fn end_line(&mut self, size: Option<u32>) -> Result<bool, FormFault>
        requires size { size_in self.old.place ≡ size }
        requires begun { self.old.whole ≡ false }
        ensures { Gives result self.new
            (finished (Line size Fresh) (record_of size self.old.bytes) self.old) }
    {
        match size {
            Some(size) => self.bytes.resize(size as usize, BLANK).unwrap(),
            None => {
                if self.bytes.is_empty() {
                    self.bytes.push_reserved(BLANK);
                }
            }
        }
        self.place = Place::Line(size, Begun::Fresh);
        self.whole = true;
        self.count_record()
    }

    // Takes bytes from the front, and says how many.
    fn skip_front(&mut self, bytes: &[u8]) -> usize
        requires some { 0 < length bytes.now }
        requires begun { self.old.whole ≡ false }
        ensures { SkipsFront self.old self.new bytes.now result }
    {
        match self.place {
            Place::Line(size, Begun::Fresh) => self.skip_simple(size, bytes),
            Place::Block(size) => self.skip_within(size, bytes),
            _ => 0,
        }
    }

    // Takes characters that are a byte each, as many as the record has room for.
    fn skip_simple(&mut self, size: Option<u32>, bytes: &[u8]) -> usize
        requires some { 0 < length bytes.now }
        requires place { self.old.place ≡ Line size Fresh }
        requires begun { self.old.whole ≡ false }
        ensures { SkipsFront self.old self.new bytes.now result }
    {
        let room = longest_at(self.place) as usize - self.bytes.len();
        let most = room.min(bytes.len() - 1);
        let count = simple_front(&bytes[..most]);
        put_codes(&mut self.bytes, &bytes[..count]);
        count
    }

    // Takes bytes of a record of one size, all but the last one of it at most.
    fn skip_within(&mut self, size: u32, bytes: &[u8]) -> usize
        requires some { 0 < length bytes.now }
        requires place { self.old.place ≡ Block size }
        requires begun { self.old.whole ≡ false }
        ensures { SkipsFront self.old self.new bytes.now result }
    {
        let room = size as usize - self.bytes.len() - 1;
        let count = room.min(bytes.len() - 1);
        self.bytes.extend_from_slice(&bytes[..count]).unwrap();
        count
    }

    #[tactic(auto, unfolding(crate::specs::RecordReads::block_fed))]
    fn feed_block(&mut self, size: u32, byte: u8) -> Result<bool, FormFault>
        requires place { self.old.place ≡ Block size }
        requires begun { self.old.whole ≡ false }
        ensures { Gives result self.new (block_fed size byte self.old) }
    {
        self.bytes.push_reserved(byte);
        if self.bytes.len() < size as usize {
            return Ok(false);
        }
        self.whole = true;
        self.count_record()
    }

    // The last record of one size is filled with zeros.
    fn fill_block(&mut self, size: u32) -> Result<bool, FormFault>
        requires place { self.old.place ≡ Block size }
        requires begun { self.old.whole ≡ false }
        ensures { Gives result self.new
            (finished (Block size) (fitted self.old.bytes size 0) self.old) }
    {
        self.bytes.resize(size as usize, 0).unwrap();
        self.whole = true;
        self.count_record()
    }

    #[tactic(auto, unfolding(crate::specs::RecordReads::stored_fed))]
    fn feed_stored(&mut self, size: Option<u32>, head: Head, byte: u8) -> Result<bool, FormFault>
        requires place { self.old.place ≡ Stored size head }
        requires begun { self.old.whole ≡ false }
        ensures { Gives result self.new (stored_fed size head byte self.old) }
    {
        match head {
            Head::Start => {
                self.place = Place::Stored(size, Head::High(byte));
                Ok(false)
            }
            Head::High(high) => self.begin_stored(size, high, byte),
            Head::Left(left) => self.feed_left(size, left, byte),
        }
    }

    // Both bytes of a length came.
    #[tactic(auto, unfolding(crate::specs::RecordReads::stored_fed))]
    fn begin_stored(&mut self, size: Option<u32>, high: u8, byte: u8) -> Result<bool, FormFault>
        requires place { self.old.place ≡ Stored size (High high) }
        requires begun { self.old.whole ≡ false }
        ensures { Gives result self.new (stored_fed size (High high) byte self.old) }
    {
        let length = u32::from(high) * 256 + u32::from(byte);
        if !is_length(size, length) {
            return Err(FormFault::BadLength(self.number()));
        }
        self.place = Place::Stored(size, Head::Left(length));
        Ok(false)
    }

    // A byte of a record whose length came.
    #[tactic(auto, unfolding(crate::specs::RecordReads::stored_fed))]
    fn feed_left(&mut self, size: Option<u32>, left: u32, byte: u8) -> Result<bool, FormFault>
        requires place { self.old.place ≡ Stored size (Left left) }
        requires begun { self.old.whole ≡ false }
        ensures { Gives result self.new (stored_fed size (Left left) byte self.old) }
    {
        self.bytes.push_reserved(byte);
        if left > 1 {
            self.place = Place::Stored(size, Head::Left(left - 1));
            return Ok(false);
        }
        self.place = Place::Stored(size, Head::Start);
        self.whole = true;
        self.count_record()
    }

    // The host file ends between two records.
    fn end_between(&self) -> Result<bool, FormFault>
        requires begun { self.now.whole ≡ false }
        ensures { Gives result self.now (ends self.now) }
    {
        if self.count == 0 {
            Err(FormFault::Empty)
        } else {
            Ok(false)
        }
    }
}
