// The name of an image.
ghost use Rattle.std.specs.Prelude.{◌≡◌, List, ℕ, IfOk};
ghost use Rattle.std.specs.String.{string_bytes};

use std::alloc::{AllocError, Global};
use std::marker::Model;

/// The name under which an image is attached, a text of any length. Contracts see the list of its bytes.
#[derive(Drop)]
pub struct ImageName {
    text: String,
}

impl Model for ImageName {
    ghost Value = { List ℕ };

    ghost view = { λ n. string_bytes n.text };
}

impl ImageName {
    /// A copy of this text.
    pub fn of(alloc: Global, name: &str) -> Result<ImageName, AllocError>
        ensures { IfOk result (λ n. n ≡ name.now) }
    {
        Ok(ImageName {
            text: String::from_str(alloc, name)?,
        })
    }

    /// The text itself.
    pub fn text(&self) -> &str
        ensures { result.now ≡ self.now }
    {
        self.text.as_str()
    }
}
