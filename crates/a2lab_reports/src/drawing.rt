//! The screen that `run` prints.

ghost use Rattle.std.specs.Prelude.{◌<◌};

use a2_page::{View, print, print_attributes};
use a2_stream::{Output, WriteFault, put};
use a2_tty::{Colours, Shot, Tile, put_tile};
use a2lab_commands::Terminal;

// Returns whether a row has anything but normal characters.
fn is_drawn_row(shot: &Shot, row: u8) -> bool
    requires { row < 24 }
{
    for column in 0..40u8 {
        if !matches!(shot.tile(row, column), Tile::Letter(_)) {
            return true;
        }
    }
    false
}

// Returns whether a screen has anything but normal characters.
fn is_drawn(shot: &Shot) -> bool {
    for row in 0..24u8 {
        if is_drawn_row(shot, row) {
            return true;
        }
    }
    false
}

// Draws a row of the screen.
fn put_row<W: Output>(
    shot: &Shot,
    row: u8,
    colours: Colours,
    output: &mut W,
) -> Result<(), WriteFault>
    requires { row < 24 }
{
    for column in 0..40u8 {
        put_tile(shot.tile(row, column), colours, output)?;
    }
    put(b"\x1B[0m\n", output)
}

// Writes the characters of a row of normal characters.
fn put_letters<W: Output>(shot: &Shot, row: u8, output: &mut W) -> Result<(), WriteFault>
    requires { row < 24 }
{
    for column in 0..40u8 {
        if let Tile::Letter(code) = shot.tile(row, column) {
            put(&[code], output)?;
        }
    }
    put(b"\n", output)
}

// Draws the screen row by row. Flashing characters are drawn as inverse ones.
fn put_drawing<W: Output>(shot: &Shot, colours: Colours, output: &mut W) -> Result<(), WriteFault> {
    for row in 0..24u8 {
        if is_drawn_row(shot, row) {
            put_row(shot, row, colours, output)?;
        } else {
            put_letters(shot, row, output)?;
        }
    }
    Ok(())
}

// Prints what the screen shows: on a terminal with colours drawn if it has blocks or inverse characters, and otherwise as text.
fn put_shown<W: Output>(
    view: &View,
    terminal: Option<Terminal>,
    output: &mut W,
) -> Result<(), WriteFault> {
    let shot = Shot::new(view, true);
    match terminal {
        Some(terminal) if is_drawn(&shot) => put_drawing(&shot, terminal.colours, output),
        _ => print(view, output),
    }
}

/// Prints the screen, and then how its characters are shown if that is asked for.
pub(crate) fn put_screen<W: Output>(
    view: &View,
    terminal: Option<Terminal>,
    attributes: bool,
    output: &mut W,
) -> Result<(), WriteFault> {
    put_shown(view, terminal, output)?;
    if attributes {
        print_attributes(view, output)?;
    }
    Ok(())
}
