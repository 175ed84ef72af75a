// &TYPE, &BEGTYPE, &STACK, &BEGSTACK and &COMMAND.
ghost use Rattle.std.specs.Prelude.{◌≡◌};
ghost use Rattle.exec2_run.specs.Faults.{Answers, Does};
ghost use Rattle.exec2_run.specs.Outputs as spec;

use crate::exec::ExecState;
use crate::values::{no_words, text};
use crate::{Fault, Side, Want};
use cms_text::{Line, Lines, Word, first_word, is_keyword};

/// The lines up to an &END, and the place behind it.
#[derive(Drop)]
struct Block {
    lines: Lines,
    past: u32,
}

impl ExecState {
    /// &TYPE text.
    #[tactic(auto, unfolding(crate::specs::Outputs::typed))]
    pub fn type_text(&self, words: &[Word]) -> Result<Want, Fault>
        ensures { Answers (spec.typed self.now words.now) result }
    {
        Ok(Want::Say(self.text_line(words)?))
    }

    /// &BEGTYPE.
    #[tactic(auto, unfolding(crate::specs::Outputs::typed_block))]
    pub fn type_block(&mut self, words: &[Word]) -> Result<Want, Fault>
        ensures { Does (spec.typed_block self.old words.now) self.old self.new result }
    {
        self.no_words(words)?;
        let block = self.block()?;
        self.next = block.past;
        Ok(Want::Say(block.lines))
    }

    /// &STACK text, behind FIFO or LIFO or neither.
    #[tactic(auto, unfolding(crate::specs::Outputs::stacked))]
    pub fn stack_text(&self, words: &[Word]) -> Result<Want, Fault>
        ensures { Answers (spec.stacked self.now words.now) result }
    {
        let lines = self.text_line(behind_side(words))?;
        Ok(Want::Stack(lines, side_of(words)))
    }

    /// &BEGSTACK, with FIFO or LIFO or neither.
    #[tactic(auto, unfolding(crate::specs::Outputs::stacked_block))]
    pub fn stack_block(&mut self, words: &[Word]) -> Result<Want, Fault>
        ensures { Does (spec.stacked_block self.old words.now) self.old self.new result }
    {
        self.no_words(behind_side(words))?;
        let block = self.block()?;
        self.next = block.past;
        Ok(Want::Stack(block.lines, side_of(words)))
    }

    /// &COMMAND text.
    #[tactic(auto, unfolding(crate::specs::Outputs::issued))]
    pub fn command(&self, words: &[Word]) -> Result<Want, Fault>
        ensures { Answers (spec.issued self.now words.now) result }
    {
        Ok(Want::Command(text(self.alloc, &self.seen(), words)?))
    }

    /// No word stands here that doesn't become nothing.
    #[tactic(auto, unfolding(crate::specs::Outputs::no_words))]
    pub fn no_words(&self, words: &[Word]) -> Result<(), Fault>
        ensures { Answers (spec.no_words self.now words.now) result }
    {
        no_words(self.alloc, &self.seen(), words)
    }

    /// The text that words make, as the only line.
    fn text_line(&self, words: &[Word]) -> Result<Lines, Fault>
        ensures { Answers (spec.text_line self.now words.now) result }
    {
        let line = text(self.alloc, &self.seen(), words)?;
        let mut lines = Lines::new(self.alloc);
        lines.push(line)?;
        Ok(lines)
    }

    /// The lines from the next one up to the first whose first word is &END.
    #[tactic(auto, using(crate::proofs::Blocks::block_goes_on), unfolding(crate::specs::Outputs::block_from))]
    fn block(&self) -> Result<Block, Fault>
        ensures { Answers (spec.block self.now) result }
    {
        let mut lines = Lines::new(self.alloc);
        let end = self.lines.len() as u32;
        for place in self.next..end {
            let Some(line) = self.lines.get(place as usize) else {
                return Err(Fault::NoEnd);
            };
            if is_end(line.bytes()) {
                return Ok(Block {
                    lines,
                    past: place + 1,
                });
            }
            lines.push(Line::of(self.alloc, line.bytes())?)?;
        }
        Err(Fault::NoEnd)
    }
}

fn is_end(line: &[u8]) -> bool
    ensures { result ≡ spec.is_end line.now }
{
    is_keyword(first_word(line), "&END")
}

/// Where lines are stacked: at the back, unless LIFO stands first.
fn side_of(words: &[Word]) -> Side
    ensures { result ≡ spec.side_of words.now }
{
    match words {
        [word, ..] if is_keyword(word.bytes(), "LIFO") => Side::Front,
        _ => Side::Back,
    }
}

/// The words without a FIFO or LIFO in front.
fn behind_side(words: &[Word]) -> &[Word]
    ensures { result.now ≡ spec.behind_side words.now }
{
    match words {
        [word, others @ ..] if is_side(word.bytes()) => others,
        _ => words,
    }
}

fn is_side(word: &[u8]) -> bool
    ensures { result ≡ spec.is_side word.now }
{
    is_keyword(word, "FIFO") || is_keyword(word, "LIFO")
}
