// The variables of a procedure.
ghost use Rattle.std.specs.Prelude.{◌≡◌, ◌==◌, OnOk, OnErr, IfOk, IfErr, IsSome, None};
ghost use Rattle.std.specs.Option.{option_copied};
ghost use Rattle.std.specs.FinMap as finite;

use cms_text::Word;
use std::alloc::{AllocError, Global};
use std::collections::BTreeMap;
use std::marker::Model;

/// The variables of a procedure: a finite map from names, written without their ampersand, to values.
#[derive(Drop)]
pub struct Vars {
    values: BTreeMap<Vec<u8>, Word>,
}

impl Model for Vars {
    ghost use Rattle.std.specs.FinMap as finite;
    ghost use Rattle.std.specs.Coded.{coded_ℕ, coded_list};
    ghost use Rattle.exec2_parse.specs.Variables as spec;
    ghost use Rattle.exec2_parse.specs.Variables.{texts_of};

    ghost Value = { spec.Vars };

    ghost coded = { finite.code (coded_list coded_ℕ) (coded_list coded_ℕ) };

    ghost view = { λ v. finite.from_entries (texts_of v.values.entries) };
}

impl Vars {
    /// No variable is set.
    pub fn new(alloc: Global) -> Vars
        ensures { result ≡ finite.empty }
    {
        Vars {
            values: BTreeMap::new(alloc),
        }
    }

    /// Sets the variable, in place of the value that it had. A variable that is set takes no memory.
    pub fn set(&mut self, name: Word, value: Word) -> Result<(), AllocError>
        ensures ok { OnOk result (self.new ≡ finite.insert self.old name value) }
        ensures err { OnErr result (self.new ≡ self.old) }
        ensures new { OnErr result (finite.get self.old name ≡ None) }
    {
        self.replace(name, value)?;
        Ok(())
    }

    /// Sets the variable, and gives the value that it had. A variable that is set takes no memory.
    pub fn replace(&mut self, name: Word, value: Word) -> Result<Option<Word>, AllocError>
        ensures before { IfOk result (λ before. before ≡ finite.get self.old name) }
        ensures ok { OnOk result (self.new ≡ finite.insert self.old name value) }
        ensures err { OnErr result (self.new ≡ self.old) }
        ensures new { OnErr result (finite.get self.old name ≡ None) }
    {
        Ok(self.values.insert(name.into_bytes(), value)?)
    }

    /// Sets a variable that is set, which takes no memory. The value of one that isn't comes back.
    pub fn put(&mut self, name: &[u8], value: Word) -> Result<(), Word>
        ensures ok { OnOk result (self.new ≡ finite.insert self.old name.now value) }
        ensures set { OnOk result (IsSome (finite.get self.old name.now)) }
        ensures unset { OnErr result (finite.get self.old name.now ≡ None) }
        ensures err { OnErr result (self.new ≡ self.old) }
        ensures back { IfErr result (λ back. back ≡ value) }
    {
        match self.values.get_mut(name) {
            Some(place) => {
                *place = value;
                Ok(())
            }
            None => Err(value),
        }
    }

    /// Forgets the variable, if it is set.
    pub fn unset(&mut self, name: &[u8])
        ensures { self.new ≡ finite.remove self.old name.now }
    {
        self.values.remove(name);
    }

    /// The variable's value; none where it isn't set.
    pub fn get(&self, name: &[u8]) -> Option<&Word>
        ensures { option_copied result ≡ finite.get self.now name.now }
    {
        self.values.get(name)
    }

    /// How many variables are set.
    pub fn len(&self) -> usize
        ensures { result ≡ finite.len self.now }
    {
        self.values.len()
    }

    /// Whether no variable is set.
    pub fn is_empty(&self) -> bool
        ensures { result ≡ (finite.len self.now == 0) }
    {
        self.len() == 0
    }
}
