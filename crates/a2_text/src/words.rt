//! The words of a text: the pieces between its blanks.

ghost use Rattle.std.specs.Prelude.{◌≡◌, ◌<◌, ◌≤◌, ℕ, Bool, [], ◌∷◌, None, Some, length, MatchOption, IfSome};
ghost use Rattle.std.specs.List.{prefix_len};
ghost use Rattle.a2_text.specs.Words as word;
ghost use Rattle.a2_text.specs.Words.{IsTest};

use crate::numbers::is_blank;

/// Returns how many bytes at the front of a text pass a test, from 0 to the text's length.
pub fn front_len<P: Fn(u8) -> bool>(text: &[u8], test: P) -> usize
    requires { P.IsAlwaysCallable test }
    ensures is { (p : ℕ → Bool) → IsTest p (P.post test) → result ≡ prefix_len p text.now }
    ensures within { result ≤ length text.now }
{
    for (i, c) in text.iter().enumerate() {
        if !test(*c) {
            return i;
        }
    }
    text.len()
}

/// Returns the text after the blanks at its front.
pub fn after_blanks(text: &[u8]) -> &[u8]
    ensures { result.now ≡ word.after_blanks text.now }
{
    &text[front_len(text, |c| is_blank(c))..]
}

/// Returns the first word of a text and the text after it, or `None` if the text is blank.
pub fn first_word(text: &[u8]) -> Option<(&[u8], &[u8])>
    ensures words { MatchOption result (word.words text.now ≡ [])
        (λ (first, following). word.words text.now ≡ first.now ∷ word.words following.now) }
    ensures shorter { IfSome result (λ (_, following). length following.now < length text.now) }
{
    let here = after_blanks(text);
    if here.is_empty() {
        return None;
    }
    Some(here.split_at(front_len(here, |c| !is_blank(c))))
}

/// Returns the first word of a text and the text after it; both are empty if the text is blank.
#[tactic(auto, unfolding(crate::specs::Words::first_word, crate::specs::Words::after_first_word))]
pub fn split_word(text: &[u8]) -> (&[u8], &[u8])
    ensures word { result.0.now ≡ word.first_word text.now }
    ensures following { result.1.now ≡ word.after_first_word text.now }
{
    let here = after_blanks(text);
    here.split_at(front_len(here, |c| !is_blank(c)))
}

/// Returns the only word of a text, or `None` if the text has no word or several.
pub fn only_word(text: &[u8]) -> Option<&[u8]>
    ensures { MatchOption result (word.only_word (word.words text.now) ≡ None) (λ w. word.only_word (word.words text.now) ≡ Some w.now) }
{
    let (word, following) = first_word(text)?;
    first_word(following).is_none().then_some(word)
}
