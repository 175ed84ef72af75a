// Extensions under their words.
ghost use Rattle.std.proofs.Props.{props};
ghost use Rattle.std.specs.List.{IsDistinct};
ghost use Rattle.std.specs.Prelude.{map, length, ◌<◌, ◌^◌};
ghost use Rattle.std.specs.Str.{bytes_eq};

use crate::extension::{ExtReply, ExtWant, Extension};
use crate::question::ask;
use cms_names::Part;
use std::alloc::{AllocError, Global};

// An object under its word.
#[derive(Drop)]
struct Seat<T> {
    word: Part,
    object: T,
}

/// Extensions under their words, in the order in which they were handed in; no two have one word.
///
/// What is said of a list is said of its words and of the objects in its boxes, each by its content and by what it may do.
#[derive(Drop)]
pub struct ExtList {
    seats: Vec<Seat<Box<dyn Extension>>>,
    ghost few: { length seats.items < 2 ^ 32 },
    ghost differ: { IsDistinct bytes_eq (map (λ s. s.word) seats.items) } by { Prim.hlevel props },
}

/// Why an extension isn't taken; it comes back.
#[derive(Drop)]
pub enum PushExt {
    /// another stands under its word
    Twice(Box<dyn Extension>),
    /// there is no memory
    Memory(Box<dyn Extension>),
}

impl<T> Seat<T> {
    ghost use Rattle.std.specs.Prelude.{◌≡◌, position};
    ghost use Rattle.std.specs.Str.{bytes_eq};

    // It stands under this word.
    fn is_under(&self, word: &Part) -> bool
        ensures { result ≡ bytes_eq word.now self.now.word }
    {
        *word == self.word
    }

    // The place of a word.
    fn place_of(seats: &[Seat<T>], word: &Part) -> Option<usize>
        ensures { result ≡ position (λ s. bytes_eq word.now s.word) seats.now }
    {
        seats.iter().position(|seat| seat.is_under(word))
    }
}

impl ExtList {
    ghost use Rattle.std.specs.Prelude.{◌≡◌, ◌<◌, [], ◌∷◌, ◌++◌, IfErr, OnOk, OnErr, length, remove, slice_get, Err, None, Some, IsSome, ◌⊎◌};
    ghost use Rattle.cms_ext.specs.Objects.{objects_of, object_under, place_of, words_of, AnswersAt, HasPlace};
    ghost use Rattle.cms_ext.specs.declared.list.PushExt.TheVariants.{Twice, Memory};

    /// No extensions.
    pub fn new(alloc: Global) -> ExtList
        ensures { objects_of ⟦<dyn Extension as Extension>⟧ result ≡ [] }
    {
        ExtList {
            seats: Vec::new(alloc),
        }
    }

    /// How many there are.
    pub fn len(&self) -> usize
        ensures length { result ≡ length (objects_of ⟦<dyn Extension as Extension>⟧ self.now) }
        ensures few { result < 2 ^ 32 }
    {
        self.seats.len()
    }

    /// The place of a word, from 0; none exactly where it isn't there.
    pub fn find(&self, word: &Part) -> Option<u32>
        ensures { result ≡ place_of word.now (objects_of ⟦<dyn Extension as Extension>⟧ self.now) }
    {
        match Seat::place_of(&self.seats, word) {
            Some(place) => Some(place as u32),
            None => None,
        }
    }

    /// Hands an object in under a word, behind the others. It comes back where another stands under the word, `Twice`, or where there is
    /// no memory.
    pub fn push(&mut self, word: Part, object: Box<dyn Extension>) -> Result<(), PushExt>
        ensures ok { OnOk result (objects_of ⟦<dyn Extension as Extension>⟧ self.new
            ≡ objects_of ⟦<dyn Extension as Extension>⟧ self.old
            ++ object_under ⟦<dyn Extension as Extension>⟧ word object.vtable object.value ∷ []) }
        ensures err { OnErr result (objects_of ⟦<dyn Extension as Extension>⟧ self.new
            ≡ objects_of ⟦<dyn Extension as Extension>⟧ self.old) }
        ensures back { IfErr result (λ fault. (fault ≡ Twice object) ⊎ (fault ≡ Memory object)) }
        ensures twice { IsSome (place_of word (objects_of ⟦<dyn Extension as Extension>⟧ self.old))
            → result ≡ Err (Twice object) }
        ensures fresh { place_of word (objects_of ⟦<dyn Extension as Extension>⟧ self.old) ≡ None
            → result ≡ Err (Twice object) → ⊥ }
    {
        if self.find(&word).is_some() {
            return Err(PushExt::Twice(object));
        }
        if self.seats.len() >= u32::MAX as usize {
            return Err(PushExt::Memory(object));
        }
        match self.seats.push(Seat { word, object }) {
            Ok(()) => Ok(()),
            Err(refused) => {
                let Seat { word: _, object } = refused.value;
                Err(PushExt::Memory(object))
            }
        }
    }

    /// The word in a place.
    pub fn word(&self, place: u32) -> &Part
        requires { HasPlace place (objects_of ⟦<dyn Extension as Extension>⟧ self.now) }
        ensures { slice_get (words_of (objects_of ⟦<dyn Extension as Extension>⟧ self.now)) place
            ≡ Some result.now }
    {
        &self.seats[place as usize].word
    }

    /// Takes the word in a place and its object out, and drops the object. Those behind it move up.
    pub fn drop_at(&mut self, place: u32)
        requires { HasPlace place (objects_of ⟦<dyn Extension as Extension>⟧ self.old) }
        ensures { objects_of ⟦<dyn Extension as Extension>⟧ self.new
            ≡ remove (objects_of ⟦<dyn Extension as Extension>⟧ self.old) place }
    {
        let _ = self.seats.remove(place as usize);
    }

    /// Asks the object in a place.
    pub(crate) fn ask(
        &mut self,
        alloc: Global,
        place: u32,
        reply: &ExtReply,
    ) -> Result<ExtWant, AllocError>
        requires { HasPlace place (objects_of ⟦<dyn Extension as Extension>⟧ self.old) }
        ensures { AnswersAt (objects_of ⟦<dyn Extension as Extension>⟧ self.old) place reply.now
            (objects_of ⟦<dyn Extension as Extension>⟧ self.new) result }
    {
        ask(alloc, &mut self.seats[place as usize].object, reply)
    }
}
