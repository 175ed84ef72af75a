// &CALL and &RETURN.
ghost use Rattle.std.specs.Prelude.{◌≡◌, OnOk, OnErr};
ghost use Rattle.exec2_run.specs.Calls as spec;
ghost use Rattle.exec2_run.specs.Faults.{Does};

use crate::calls::Call;
use crate::exec::ExecState;
use crate::loops::Loops;
use crate::values::{expanded_words, missing, whole};
use crate::variables::numbered;
use crate::{Fault, Want};
use cms_text::Word;
use exec2_parse::Vars;
use std::alloc::AllocError;

/// The most calls that may be open.
const MOST: usize = 100;

impl ExecState {
    /// &CALL, with a label and the arguments.
    #[tactic(auto, unfolding(crate::specs::Calls::called))]
    pub fn call(&mut self, words: &[Word]) -> Result<Want, Fault>
        ensures { Does (spec.called self.old words.now) self.old self.new result }
    {
        let operands = expanded_words(self.alloc, &self.seen(), words)?;
        let [label, values @ ..] = operands.words.as_slice() else {
            return Err(missing(operands.is_cut));
        };
        self.call_at(label, values, operands.is_cut)
    }

    fn call_at(&mut self, label: &Word, values: &[Word], is_cut: bool) -> Result<Want, Fault>
        ensures { Does (spec.called_at self.old label.now values.now is_cut) self.old self.new
            result }
    {
        let place = self.place_named(label.bytes())?;
        whole(is_cut)?;
        self.enter(place, values)
    }

    /// Goes on at a place with these arguments.
    #[tactic(auto, unfolding(crate::specs::Calls::entered))]
    fn enter(&mut self, place: u32, values: &[Word]) -> Result<Want, Fault>
        ensures { Does (spec.entered self.old place values.now) self.old self.new result }
    {
        if self.calls.len() >= MOST {
            return Err(Fault::TooDeep);
        }
        self.variables.room_for(values.len())?;
        let arguments = numbered(self.alloc, values)?;
        self.put_aside(arguments, values.len())?;
        self.next = place;
        Ok(Want::Next)
    }

    /// Puts this line, the open loops and the arguments aside, and takes these arguments.
    fn put_aside(&mut self, arguments: Vars, count: usize) -> Result<(), AllocError>
        ensures ok { OnOk result (self.new ≡ spec.put_aside self.old arguments count) }
        ensures err { OnErr result (self.new ≡ self.old) }
    {
        let call = Call {
            line: self.line,
            loops: std::mem::replace(&mut self.loops, Loops::new(self.alloc)),
            arguments: std::mem::replace(&mut self.variables.arguments, arguments),
            count: self.count,
        };
        match self.calls.push(call) {
            Ok(()) => {
                self.count = count;
                Ok(())
            }
            Err(refused) => {
                self.loops = refused.loops;
                self.variables.arguments = refused.arguments;
                Err(AllocError)
            }
        }
    }

    /// &RETURN.
    #[tactic(auto, unfolding(crate::specs::Calls::returned, crate::specs::Outputs::no_words))]
    pub fn give_back(&mut self, words: &[Word]) -> Result<Want, Fault>
        ensures { Does (spec.returned self.old words.now) self.old self.new result }
    {
        if self.calls.get(0).is_none() {
            return Err(Fault::NoCall);
        }
        self.no_words(words)?;
        self.go_back()
    }

    /// Goes to the line behind the last &CALL with what was put aside.
    fn go_back(&mut self) -> Result<Want, Fault>
        ensures { Does (spec.gone_back self.old self.old.calls) self.old self.new result }
    {
        let Some(last) = self.calls.get(0) else {
            return Err(Fault::NoCall);
        };
        self.variables.room_for(last.arguments.len())?;
        let Some(call) = self.calls.pop() else {
            return Err(Fault::NoCall);
        };
        self.next = call.line;
        self.loops = call.loops;
        self.variables.arguments = call.arguments;
        self.count = call.count;
        Ok(Want::Next)
    }
}
