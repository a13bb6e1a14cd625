ghost use Rattle.std.specs.Prelude.{◌≡◌, IfOk};

use crate::OutOfMemory;
use draw_ops::Image;
use std::marker::Model;

/// An image in its slot, with the number of the drawing that loaded it.
#[derive(Debug, Drop)]
pub struct LoadedImage {
    number: u64,
    content: Image,
}

impl Model for LoadedImage {
    ghost use Rattle.draw_ops.specs.Content.{ImageOf};
    ghost use Rattle.draw_ops.specs.Slots.{Loaded};

    ghost Value = { Loaded ImageOf };

    ghost view = { λ s. record { number = s.number; content = s.content } };
}

impl LoadedImage {
    /// What a drawing of this number loads.
    pub fn new(number: u64, content: Image) -> LoadedImage
        ensures { result ≡ record { number = number; content = content } }
    {
        LoadedImage { number, content }
    }

    /// The number of the drawing that loaded it, counted from 1.
    pub fn number(&self) -> u64
        ensures { result ≡ self.now.number }
    {
        self.number
    }

    /// One more handle of it; no colour is copied.
    pub fn share(&self) -> Result<LoadedImage, OutOfMemory>
        ensures { IfOk result (λ image. image ≡ self.now) }
    {
        let content = self.content.share()?;
        Ok(LoadedImage {
            number: self.number,
            content,
        })
    }

    /// The image.
    pub fn content(&self) -> &Image
        ensures { result.now ≡ self.now.content }
    {
        &self.content
    }
}
