// Where commands go: &SUBCOMMAND, &PRESUME and commands.
ghost use Rattle.exec2_run.specs.Destinations as spec;
ghost use Rattle.exec2_run.specs.Faults.{Answers, Does};

use crate::exec::ExecState;
use crate::values::{ended, expanded_words, joined, missing, text, whole};
use crate::{Fault, Want};
use cms_text::{Word, is_keyword};
use exec2_parse::{Control, copied};
use std::alloc::Global;

/// Where the commands of a procedure go.
#[derive(Drop)]
pub enum Destination {
    Cms,
    /// To the extension of this word.
    Extension(Word),
}

impl ExecState {
    /// A command: its text goes where &PRESUME said last, and at first to CMS.
    #[tactic(auto, unfolding(crate::specs::Destinations::sent))]
    pub fn send(&self, words: &[Word]) -> Result<Want, Fault>
        ensures { Answers (spec.sent self.now words.now) result }
    {
        let text = text(self.alloc, &self.seen(), words)?;
        match &self.destination {
            Destination::Cms => Ok(Want::Command(text)),
            Destination::Extension(word) => {
                let word = Word::of(self.alloc, word.bytes())?;
                Ok(Want::Sub(word, text))
            }
        }
    }

    /// &SUBCOMMAND, with a word and a text.
    #[tactic(auto, unfolding(crate::specs::Destinations::subcommanded))]
    pub fn subcommand(&self, words: &[Word]) -> Result<Want, Fault>
        ensures { Answers (spec.subcommanded self.now words.now) result }
    {
        let operands = expanded_words(self.alloc, &self.seen(), words)?;
        sent_by(self.alloc, operands.words.as_slice(), operands.is_cut)
    }

    /// &PRESUME, alone, with &COMMAND, or with &SUBCOMMAND and a word.
    #[tactic(auto, unfolding(crate::specs::Destinations::presumed))]
    pub fn presume(&mut self, words: &[Word]) -> Result<Want, Fault>
        ensures { Does (spec.presumed self.old words.now) self.old self.new result }
    {
        self.destination = self.destination_of(words)?;
        Ok(Want::Next)
    }

    /// Where &PRESUME with these words sends commands; the first is read as it stands.
    #[tactic(auto, unfolding(crate::specs::Destinations::destination_of))]
    fn destination_of(&self, words: &[Word]) -> Result<Destination, Fault>
        ensures { Answers (spec.destination_of self.now words.now) result }
    {
        let [word, others @ ..] = words else {
            return Ok(Destination::Cms);
        };
        if is_keyword(word.bytes(), Control::Command.name()) {
            self.no_words(others)?;
            return Ok(Destination::Cms);
        }
        if is_keyword(word.bytes(), Control::Subcommand.name()) {
            return self.extension_named(others);
        }
        Err(Fault::BadStatement)
    }

    /// The extension that these words name, of which there is one.
    #[tactic(auto, unfolding(crate::specs::Destinations::extension_named))]
    fn extension_named(&self, words: &[Word]) -> Result<Destination, Fault>
        ensures { Answers (spec.extension_named self.now words.now) result }
    {
        let operands = expanded_words(self.alloc, &self.seen(), words)?;
        extension_of(self.alloc, operands.words.as_slice(), operands.is_cut)
    }
}

/// The text that these words send to the extension that the first of them names.
fn sent_by(alloc: Global, words: &[Word], is_cut: bool) -> Result<Want, Fault>
    ensures { Answers (spec.subcommanded_by words.now is_cut) result }
{
    let [word, others @ ..] = words else {
        return Err(missing(is_cut));
    };
    whole(is_cut)?;
    let text = joined(alloc, &copied(alloc, others)?)?;
    let word = Word::of(alloc, word.bytes())?;
    Ok(Want::Sub(word, text))
}

/// The extension that the only one of these words names.
fn extension_of(alloc: Global, words: &[Word], is_cut: bool) -> Result<Destination, Fault>
    ensures { Answers (spec.extension_named_by words.now is_cut) result }
{
    let [word, others @ ..] = words else {
        return Err(missing(is_cut));
    };
    ended(others, is_cut)?;
    let word = Word::of(alloc, word.bytes())?;
    Ok(Destination::Extension(word))
}
