//! Cutting a text at a byte.

ghost use Rattle.std.specs.Prelude.{◌≡◌, ◌==◌, ◌<◌, [], ◌∷◌, length, MatchOption, IfSome};
ghost use Rattle.std.specs.List.{slice_split, before_first, after_first};

use a2_text::front_len;

// Returns the text before the first `mark` and the text after it, or `None` in place of the latter if the text has no
// `mark`.
pub(crate) fn cut_at(text: &[u8], mark: u8) -> (&[u8], Option<&[u8]>)
    ensures front { result.0.now ≡ before_first (λ c. c == mark) text.now }
    ensures following { MatchOption result.1 (after_first (λ c. c == mark) text.now ≡ []) (λ rest. rest.now ≡ after_first (λ c. c == mark) text.now) }
    ensures pieces { MatchOption result.1 (slice_split (λ c. c == mark) text.now ≡ result.0.now ∷ [])
        (λ rest. slice_split (λ c. c == mark) text.now ≡ result.0.now ∷ slice_split (λ c. c == mark) rest.now) }
    ensures shorter { IfSome result.1 (λ rest. length rest.now < length text.now) }
{
    let end = front_len(text, |c| c != mark);
    if end < text.len() {
        (&text[..end], Some(&text[end + 1..]))
    } else {
        (text, None)
    }
}
