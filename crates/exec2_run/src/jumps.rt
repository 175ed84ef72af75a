// Labels, &GOTO and &SKIP.
ghost use Rattle.std.specs.Prelude.{◌≡◌, ◌≤◌, ◌<◌, ◌^◌, ◌∷◌, [], ◌⊎◌, length, drop, true, false, IfSome, MatchResult, Ok, Err};
ghost use Rattle.std.specs.List.{position_from};
ghost use Rattle.exec2_run.specs.Faults.{Does};
ghost use Rattle.exec2_run.specs.Jumps as spec;
ghost use Rattle.exec2_run.specs.Values.{operands};
ghost use Rattle.exec2_parse.specs.Expansion.{Binding};
ghost use Rattle.exec2_parse.specs.Words.{has_label, is_label};

use crate::exec::ExecState;
use crate::values::{ended, expanded_words, missing, whole};
use crate::words::only;
use crate::{Fault, Want};
use cms_text::{BLANK, Word, first_word, number};
use exec2_parse::{Procedure, is_label, is_plain};

const HYPHEN: u8 = 0x60;

/// Whether a line has a label. One that begins neither with a hyphen nor with a blank isn't read further.
#[tactic(auto, using(crate::proofs::Fronts::no_label))]
fn has_label(line: &[u8], label: &[u8]) -> bool
    requires { is_label label.now ≡ true }
    ensures { result ≡ has_label label.now line.now }
{
    match line {
        [HYPHEN | BLANK, ..] => first_word(line) == label,
        _ => false,
    }
}

/// The place of the first line with a label, from a place on.
#[tactic(auto, unfolding(crate::specs::Jumps::label_from))]
pub fn label_from(lines: &Procedure, label: &[u8], from: u32) -> Option<u32>
    requires { is_label label.now ≡ true }
    ensures place { result ≡ spec.label_from label.now from lines.now }
    ensures within { IfSome result (λ place. (place < length lines.now) × (place < 4096)) }
{
    let end = lines.len() as u32;
    for place in from..end {
        let Some(line) = lines.get(place as usize) else {
            return None;
        };
        if has_label(line.bytes(), label) {
            return Some(place);
        }
    }
    None
}

/// The only word, a label without variables.
#[tactic(auto, using(crate::proofs::Borrows::label_stays))]
fn only_label(words: &[Word]) -> Option<&[u8]>
    ensures { IfSome result (λ label. (names : Binding) → operands names words.now
        ≡ record { words = label.now ∷ []; is_cut = false }) }
{
    let word = only(words)?.bytes();
    if !is_label(word) || !is_plain(word) {
        return None;
    }
    Some(word)
}

impl ExecState {
    /// The place of the first line with a label, from the next line to the end and then from the top.
    fn label_place(&self, label: &[u8]) -> Option<u32>
        requires { is_label label.now ≡ true }
        ensures { result ≡ spec.label_place label.now self.now.next self.now.lines }
    {
        match label_from(&self.lines, label, self.next) {
            Some(place) => Some(place),
            None => label_from(&self.lines, label, 0),
        }
    }

    /// The place that a word of &GOTO or &CALL names.
    pub fn place_named(&self, label: &[u8]) -> Result<u32, Fault>
        ensures { result ≡ spec.place_named self.now label.now }
    {
        if !is_label(label) {
            return Err(Fault::BadStatement);
        }
        self.label_place(label).ok_or(Fault::NoLabel)
    }

    /// &GOTO -label.
    #[tactic(auto, unfolding(crate::specs::Jumps::gone))]
    pub fn go_to(&mut self, words: &[Word]) -> Result<Want, Fault>
        ensures { Does (spec.gone self.old words.now) self.old self.new result }
    {
        self.next = self.place_of(words)?;
        Ok(Want::Next)
    }

    /// The place to which &GOTO with these words goes.
    #[tactic(auto, unfolding(crate::specs::Jumps::gone))]
    fn place_of(&self, words: &[Word]) -> Result<u32, Fault>
        ensures { MatchResult result
            (λ place. spec.gone self.now words.now
            ≡ Ok (record self.now { next = place }, Want.Next))
            (λ fault. (fault ≡ Fault.Memory) ⊎ (spec.gone self.now words.now ≡ Err fault)) }
    {
        if let Some(label) = only_label(words) {
            return self.place_named(label);
        }
        let operands = expanded_words(self.alloc, &self.seen(), words)?;
        self.place_in(operands.words.as_slice(), operands.is_cut)
    }

    /// The same with the words expanded.
    fn place_in(&self, words: &[Word], is_cut: bool) -> Result<u32, Fault>
        ensures { MatchResult result
            (λ place. spec.gone_by self.now words.now is_cut
            ≡ Ok (record self.now { next = place }, Want.Next))
            (λ fault. spec.gone_by self.now words.now is_cut ≡ Err fault) }
    {
        let [label, others @ ..] = words else {
            return Err(missing(is_cut));
        };
        let place = self.place_named(label.bytes())?;
        ended(others, is_cut)?;
        Ok(place)
    }

    /// &SKIP, with a number or without.
    #[tactic(auto, unfolding(crate::specs::Jumps::skipped))]
    pub fn skip(&mut self, words: &[Word]) -> Result<Want, Fault>
        ensures { Does (spec.skipped self.old words.now) self.old self.new result }
    {
        let operands = expanded_words(self.alloc, &self.seen(), words)?;
        self.next = self.place_behind(operands.words.as_slice(), operands.is_cut)?;
        Ok(Want::Next)
    }

    /// The place to which &SKIP with these words goes.
    fn place_behind(&self, words: &[Word], is_cut: bool) -> Result<u32, Fault>
        ensures { MatchResult result
            (λ place. spec.skipped_by self.now words.now is_cut
            ≡ Ok (record self.now { next = place }, Want.Next))
            (λ fault. spec.skipped_by self.now words.now is_cut ≡ Err fault) }
    {
        let [count, others @ ..] = words else {
            whole(is_cut)?;
            return self.place_after(1);
        };
        let Some(count) = number(count.bytes()) else {
            return Err(Fault::NotNumber);
        };
        let place = self.place_after(count)?;
        ended(others, is_cut)?;
        Ok(place)
    }

    /// The place that so many lines lie before, or with a negative number the one so many lines above this line.
    fn place_after(&self, count: i64) -> Result<u32, Fault>
        ensures { result ≡ spec.place_after self.now count }
    {
        if count < 0 {
            self.place_above(count.unsigned_abs())
        } else {
            self.place_below(count.unsigned_abs())
        }
    }

    fn place_above(&self, count: u64) -> Result<u32, Fault>
        ensures { result ≡ spec.place_above self.now count }
    {
        if count < u64::from(self.next) {
            Ok(self.next - 1 - count as u32)
        } else {
            Err(Fault::OutsideLines)
        }
    }

    /// The place behind so many lines from the next one on.
    pub fn place_below(&self, count: u64) -> Result<u32, Fault>
        ensures { result ≡ spec.place_below self.now count }
    {
        let lines = self.lines.len() as u64;
        let next = u64::from(self.next);
        if next <= lines && count <= lines - next {
            Ok(self.next + count as u32)
        } else {
            Err(Fault::OutsideLines)
        }
    }
}
