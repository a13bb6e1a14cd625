//! What a drawing that goes as an order takes from its viewer's caches.
ghost use Rattle.std.specs.Prelude.{◌≡◌, IfOk};
ghost use Rattle.frame_plan.specs.Orders.{cached_with};

use crate::{OutOfMemory, Pending};
use session_core::{LoadedBrush, LoadedImage};

/// What an order takes from caches. A handle shares its image or its brush with the session.
#[derive(Drop)]
pub enum Cached {
    Nothing,
    Brush(LoadedBrush),
    /// An image, and the number of the bitmap cache that it goes to.
    Image {
        cache: u8,
        image: LoadedImage,
    },
    /// Both.
    ImageAndBrush {
        cache: u8,
        image: LoadedImage,
        brush: LoadedBrush,
    },
    /// The number of the glyph cache that the glyphs of a run go to.
    Glyphs(u8),
}

/// What a drawing takes, whose image goes to this cache, or its glyphs where it has no image.
pub(crate) fn cached_for(pending: &Pending, cache: Option<u8>) -> Result<Cached, OutOfMemory>
    ensures { IfOk result (λ cached. cached ≡ cached_with cache pending.now.image pending.now.brush) }
{
    Ok(match (cache, pending.image(), pending.brush()) {
        (Some(cache), Some(image), Some(brush)) => Cached::ImageAndBrush {
            cache,
            image: image.share()?,
            brush: brush.share()?,
        },
        (Some(cache), Some(image), None) => Cached::Image {
            cache,
            image: image.share()?,
        },
        (Some(cache), None, _) => Cached::Glyphs(cache),
        (None, _, Some(brush)) => Cached::Brush(brush.share()?),
        (None, _, None) => Cached::Nothing,
    })
}
