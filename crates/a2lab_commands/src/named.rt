//! The name of the standard input.

ghost use Rattle.std.specs.Prelude.{◌≡◌, ◌↔◌, true, codes};

/// Returns whether a file's name is that of the standard input.
pub fn is_input(name: &str) -> bool
    ensures { (result ≡ true) ↔ (name.now ≡ codes "-") }
{
    name == "-"
}
