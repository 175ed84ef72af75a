// &READ, the line that it asks for, and &ARGS.
ghost use Rattle.exec2_run.specs.Given.{bound};
ghost use Rattle.exec2_run.specs.Faults.{Answers, Does, Leads};
ghost use Rattle.exec2_run.specs.Readings as spec;

use crate::exec::ExecState;
use crate::given::Seen;
use crate::values::{expanded_words, whole};
use crate::variables::target;
use crate::{Fault, Want};
use cms_text::{Line, Word, WordList, is_keyword};
use exec2_parse::words_of;
use std::alloc::Global;

/// What a line is asked for.
#[derive(Drop)]
pub enum Reading {
    Nothing,
    /// Its words become the arguments.
    Arguments,
    /// These variables take a word each.
    Variables(WordList),
    /// This variable takes the line.
    Text(Word),
}

impl ExecState {
    /// &ARGS, with the words that become the arguments.
    #[tactic(auto, unfolding(crate::specs::Readings::args_given))]
    pub fn args(&mut self, words: &[Word]) -> Result<Want, Fault>
        ensures { Does (spec.args_given self.old words.now) self.old self.new result }
    {
        let operands = expanded_words(self.alloc, &self.seen(), words)?;
        whole(operands.is_cut)?;
        self.set_arguments(operands.words.as_slice())?;
        Ok(Want::Next)
    }

    /// &READ ARGS, &READ VARS and names, &READ STRING and a name.
    #[tactic(auto, unfolding(crate::specs::Readings::read))]
    pub fn read(&mut self, words: &[Word]) -> Result<Want, Fault>
        ensures { Does (spec.read self.old words.now) self.old self.new result }
    {
        self.reading = self.reading_of(words)?;
        Ok(Want::Read)
    }

    #[tactic(auto, unfolding(crate::specs::Readings::reading_of))]
    fn reading_of(&self, words: &[Word]) -> Result<Reading, Fault>
        ensures { Answers (spec.reading_of self.now words.now) result }
    {
        let [word, others @ ..] = words else {
            return Err(Fault::BadStatement);
        };
        if is_keyword(word.bytes(), "ARGS") {
            self.no_words(others)?;
            return Ok(Reading::Arguments);
        }
        if is_keyword(word.bytes(), "VARS") {
            let names = names(self.alloc, &self.seen(), others)?;
            return Ok(Reading::Variables(names));
        }
        if is_keyword(word.bytes(), "STRING") {
            return self.reading_of_text(others);
        }
        Err(Fault::BadStatement)
    }

    fn reading_of_text(&self, words: &[Word]) -> Result<Reading, Fault>
        ensures { Answers (spec.reading_of_text self.now words.now) result }
    {
        let [name, others @ ..] = words else {
            return Err(Fault::BadStatement);
        };
        let name = target(self.alloc, &self.seen(), name)?;
        self.no_words(others)?;
        Ok(Reading::Text(name))
    }

    /// Takes the line that was asked for.
    #[tactic(auto, unfolding(crate::specs::Readings::taken_for))]
    pub fn take(&mut self, reading: &Reading, line: &Line) -> Result<(), Fault>
        ensures { Leads (spec.taken_for reading.now self.old line.now) self.old self.new result }
    {
        match reading {
            Reading::Nothing => Ok(()),
            Reading::Arguments => {
                let words = words_of(self.alloc, line.bytes())?;
                self.set_arguments(words.as_slice())
            }
            Reading::Variables(names) => {
                let words = words_of(self.alloc, line.bytes())?;
                let alloc = self.alloc;
                self.variables
                    .set_each(alloc, names.as_slice(), words.as_slice())
            }
            Reading::Text(name) => {
                let name = Word::of(self.alloc, name.bytes())?;
                let value = Word::of(self.alloc, line.bytes())?;
                self.set_variable(name, value)
            }
        }
    }
}

/// The names that words are written for.
#[tactic(auto, unfolding(crate::specs::Readings::names))]
fn names(alloc: Global, seen: &Seen<'_>, words: &[Word]) -> Result<WordList, Fault>
    ensures { Answers (spec.names (bound seen.now) words.now) result }
{
    let mut names = WordList::new(alloc);
    for word in words {
        names.push(target(alloc, seen, word)?)?;
    }
    Ok(names)
}
