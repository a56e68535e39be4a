//! The page that shows a film: HTML with its style and script. The only thing proved of them is that they are written as they are
//! in `data/viewer.html`.

ghost use Rattle.std.specs.Prelude.{◌≡◌};
ghost use Rattle.a2_film.specs.Page as page_text;

use crate::viewer::{HEAD, TAIL};

/// Returns what is before the data of a film: the page up to and including the tag of the script that holds them.
#[tactic(auto, unfolding(crate::specs::Page::head))]
pub fn head() -> &'static [u8]
    ensures { result.now ≡ page_text.head }
{
    HEAD.as_bytes()
}

/// Returns what is after them, from the end of that script on.
#[tactic(auto, unfolding(crate::specs::Page::tail))]
pub fn tail() -> &'static [u8]
    ensures { result.now ≡ page_text.tail }
{
    TAIL.as_bytes()
}
