// Variables that are set, the arguments among them.
ghost use Rattle.std.specs.Prelude.{◌≡◌, ◌+◌, ◌≤◌, length, Ok, None, IfErr, IfOk, IsSome, OnErr, OnOk};
ghost use Rattle.std.specs.Option.{option_copied};
ghost use Rattle.std.specs.FinMap.{empty, get, insert, len, remove};
ghost use Rattle.std.specs.List.{list_all};
ghost use Rattle.cms_text.specs.Limits.{longest_text};
ghost use Rattle.cms_text.specs.Numbers.{decimal_of, is_digit};
ghost use Rattle.exec2_parse.specs.Variables.{value_of};
ghost use Rattle.exec2_run.specs.Faults.{Answers, Does, Leads};
ghost use Rattle.exec2_run.specs.Given as given;
ghost use Rattle.exec2_run.specs.Variables as spec;

use crate::borrowed::behind_ampersand;
use crate::exec::ExecState;
use crate::given::{Seen, is_given};
use crate::words::behind_first;
use crate::{Fault, Want};
use cms_text::Word;
use exec2_parse::{Scope, Vars, capitals, expand_in, numeral};
use std::alloc::{AllocError, Global};

/// The most variables that may be set.
const MOST: usize = 1000;

/// The name of the variable that is written as an assignment's target: its first ampersand stands, and what follows is expanded and
/// folded.
#[tactic(auto, unfolding(crate::specs::Variables::target))]
pub fn target(alloc: Global, seen: &Seen<'_>, word: &Word) -> Result<Word, Fault>
    ensures { Answers (spec.target (given.bound seen.now) word.now) result }
{
    let Some(name) = behind_ampersand(word.bytes()) else {
        return Err(Fault::BadStatement);
    };
    let name = expand_in(alloc, name, seen)?;
    let name = capitals(alloc, name)?;
    if is_given(name.bytes()) {
        return Err(Fault::Given);
    }
    Ok(name)
}

/// Whether a variable is an argument: its name is a number from 1 without leading zeros.
#[tactic(auto, unfolding(crate::specs::Given::is_argument))]
fn is_argument(name: &[u8]) -> bool
    ensures { result ≡ given.is_argument name.now }
{
    let [first, digits @ ..] = name else {
        return false;
    };
    if !is_first_digit(*first) {
        return false;
    }
    are_digits(digits)
}

fn is_first_digit(byte: u8) -> bool
    ensures { result ≡ given.is_first_digit byte }
{
    (0xF1..=0xF9).contains(&byte)
}

fn is_digit(byte: u8) -> bool
    ensures { result ≡ is_digit byte }
{
    (0xF0..=0xF9).contains(&byte)
}

fn are_digits(bytes: &[u8]) -> bool
    ensures { result ≡ list_all is_digit bytes.now }
{
    for byte in bytes {
        if !is_digit(*byte) {
            return false;
        }
    }
    true
}

/// The variables that are set, and the arguments beside the others.
#[derive(Drop)]
pub struct Variables {
    /// Those whose names are numbers from 1.
    pub arguments: Vars,
    pub others: Vars,
}

impl Variables {
    /// No variable is set.
    pub fn new(alloc: Global) -> Variables
        ensures arguments { result.arguments ≡ empty }
        ensures others { result.others ≡ empty }
    {
        Variables {
            arguments: Vars::new(alloc),
            others: Vars::new(alloc),
        }
    }

    /// The value of a variable, empty where it isn't set.
    pub fn value(&self, alloc: Global, name: &[u8]) -> Result<Word, AllocError>
        ensures { IfOk result (λ value. value
            ≡ value_of (given.table_of self.now name.now) name.now) }
    {
        if is_argument(name) {
            self.arguments.value(alloc, name)
        } else {
            self.others.value(alloc, name)
        }
    }

    /// The same, borrowed.
    pub fn bytes(&self, name: &[u8]) -> &[u8]
        ensures value { result.now ≡ value_of (given.table_of self.now name.now) name.now }
        ensures short { length result.now ≤ longest_text }
    {
        match self.get(name) {
            Some(value) => value.bytes(),
            None => &[],
        }
    }

    fn get(&self, name: &[u8]) -> Option<&Word>
        ensures { option_copied result ≡ get (given.table_of self.now name.now) name.now }
    {
        if is_argument(name) {
            self.arguments.get(name)
        } else {
            self.others.get(name)
        }
    }

    /// Whether a variable may be set.
    fn has_room(&self, name: &[u8]) -> bool
        ensures { result ≡ spec.has_room self.now name.now }
    {
        if self.get(name).is_some() {
            return true;
        }
        self.arguments.len().saturating_add(self.others.len()) < MOST
    }

    /// Sets a variable that is set, which takes no memory. The value of one that isn't comes back.
    #[tactic(auto, unfolding(crate::specs::Variables::with_value))]
    fn put(&mut self, name: &[u8], value: Word) -> Result<(), Word>
        ensures ok { OnOk result (spec.with_value self.old name.now value ≡ Ok self.new) }
        ensures err { OnErr result (self.new ≡ self.old) }
        ensures back { IfErr result (λ back. back ≡ value) }
        ensures unset { OnErr result
            (get (given.table_of self.old name.now) name.now ≡ None) }
    {
        if is_argument(name) {
            self.arguments.put(name, value)
        } else {
            self.others.put(name, value)
        }
    }

    /// Sets a variable, and gives the value that it had.
    #[tactic(auto, unfolding(crate::specs::Variables::with_value))]
    fn replace(&mut self, name: Word, value: Word) -> Result<Option<Word>, Fault>
        ensures step { Leads (spec.with_value self.old name value) self.old self.new result }
        ensures before { IfOk result (λ before. before ≡ get (given.table_of self.old name) name) }
    {
        if !self.has_room(name.bytes()) {
            return Err(Fault::TooManyVariables);
        }
        if is_argument(name.bytes()) {
            Ok(self.arguments.replace(name, value)?)
        } else {
            Ok(self.others.replace(name, value)?)
        }
    }

    /// Takes back that a variable was set, which had this value before.
    #[tactic(auto, unfolding(crate::specs::Variables::taken_back))]
    fn take_back(&mut self, name: Word, before: Option<Word>)
        requires { IsSome (get (given.table_of self.old name) name) }
        ensures { self.new ≡ spec.taken_back self.old name before }
    {
        match before {
            Some(value) => self.put_back(name, value),
            None => self.unset(name.bytes()),
        }
    }

    /// Sets a variable that is set.
    fn put_back(&mut self, name: Word, value: Word)
        requires { IsSome (get (given.table_of self.old name) name) }
        ensures { self.new ≡ spec.with_table self.old name
            (insert (given.table_of self.old name) name value) }
    {
        if is_argument(name.bytes()) {
            match self.arguments.set(name, value) {
                Ok(()) => {}
                Err(_) => {}
            }
        } else {
            match self.others.set(name, value) {
                Ok(()) => {}
                Err(_) => {}
            }
        }
    }

    fn unset(&mut self, name: &[u8])
        ensures { self.new ≡ spec.with_table self.old name.now
            (remove (given.table_of self.old name.now) name.now) }
    {
        if is_argument(name) {
            self.arguments.unset(name);
        } else {
            self.others.unset(name);
        }
    }

    /// Sets a variable.
    pub fn set(&mut self, name: Word, value: Word) -> Result<(), Fault>
        ensures { Leads (spec.with_value self.old name value) self.old self.new result }
    {
        self.replace(name, value)?;
        Ok(())
    }

    /// Sets each variable to a word, those past the last word to the empty one: all of them or none.
    #[tactic(auto, unfolding(crate::specs::Variables::each_set))]
    pub fn set_each(&mut self, alloc: Global, names: &[Word], words: &[Word]) -> Result<(), Fault>
        ensures { Leads (spec.each_set names.now words.now self.old) self.old self.new result }
    {
        let [name, others @ ..] = names else {
            return Ok(());
        };
        let value = first_or_empty(alloc, words)?;
        let again = Word::of(alloc, name.bytes())?;
        let before = self.replace(Word::of(alloc, name.bytes())?, value)?;
        match self.set_each(alloc, others, behind_first(words)) {
            Ok(()) => Ok(()),
            Err(fault) => {
                self.take_back(again, before);
                Err(fault)
            }
        }
    }

    /// Whether so many arguments may be set in place of those that are.
    pub fn room_for(&self, count: usize) -> Result<(), Fault>
        ensures { result ≡ spec.room_for (len self.now.others + count) }
    {
        if self.others.len().saturating_add(count) <= MOST {
            Ok(())
        } else {
            Err(Fault::TooManyVariables)
        }
    }
}

fn first_or_empty(alloc: Global, words: &[Word]) -> Result<Word, AllocError>
    ensures { IfOk result (λ word. word ≡ spec.first_or_empty words.now) }
{
    match words {
        [word, ..] => Word::of(alloc, word.bytes()),
        [] => Ok(Word::take(Vec::new(alloc))),
    }
}

/// These as &1 and on.
#[tactic(auto, unfolding(crate::specs::Variables::numbered))]
pub fn numbered(alloc: Global, values: &[Word]) -> Result<Vars, AllocError>
    ensures { IfOk result (λ arguments. arguments ≡ spec.numbered 1 values.now empty) }
{
    let mut arguments = Vars::new(alloc);
    for (place, value) in values.iter().enumerate() {
        set_argument(alloc, &mut arguments, place + 1, value)?;
    }
    Ok(arguments)
}

/// Sets the argument of a number.
fn set_argument(
    alloc: Global,
    arguments: &mut Vars,
    number: usize,
    value: &Word,
) -> Result<(), AllocError>
    ensures { OnOk result (arguments.new ≡ insert arguments.old (decimal_of number) value.now) }
{
    let name = numeral(alloc, number)?;
    arguments.set(name, Word::of(alloc, value.bytes())?)
}

impl ExecState {
    /// Sets a variable that isn't given.
    pub fn set_variable(&mut self, name: Word, value: Word) -> Result<(), Fault>
        ensures { Leads (spec.with_variable self.old name value) self.old self.new result }
    {
        self.variables.set(name, value)
    }

    /// Sets a variable, and wants nothing.
    pub fn set_to(&mut self, name: Word, value: Word) -> Result<Want, Fault>
        ensures { Does (spec.set_to self.old name value) self.old self.new result }
    {
        self.set_variable(name, value)?;
        Ok(Want::Next)
    }

    /// The same of a name that isn't copied where the variable is set.
    pub fn set_named(&mut self, name: &[u8], value: Word) -> Result<Want, Fault>
        requires { length name.now ≤ longest_text }
        ensures { Does (spec.set_to self.old name.now value) self.old self.new result }
    {
        match self.variables.put(name, value) {
            Ok(()) => Ok(Want::Next),
            Err(value) => {
                let name = Word::of(self.alloc, name)?;
                self.set_to(name, value)
            }
        }
    }

    /// Sets the arguments to these and no others.
    #[tactic(auto, unfolding(crate::specs::Variables::with_arguments))]
    pub fn set_arguments(&mut self, values: &[Word]) -> Result<(), Fault>
        ensures { Leads (spec.with_arguments self.old values.now) self.old self.new result }
    {
        self.variables.room_for(values.len())?;
        self.variables.arguments = numbered(self.alloc, values)?;
        self.count = values.len();
        Ok(())
    }
}
