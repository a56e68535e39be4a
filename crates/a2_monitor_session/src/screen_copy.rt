//! A copy of a screen, to find out later whether the screen has changed.

ghost use Rattle.std.specs.Prelude.{◌≡◌, ◌↔◌, true};
ghost use Rattle.a2_stream.specs.Stream.{SendsOrBreaks};
ghost use Rattle.a2_page.specs.Kept.{FitsPage, after_refresh};
ghost use Rattle.a2_page.specs.Picture.{shown_by};
ghost use Rattle.a2_machine.specs.State.{world_of_state};
ghost use Rattle.a2_monitor_session.specs.Screens.{IsSameScreen, screen_of, screen_where};

use a2_machine::Machine;
use a2_page::{Picture, Switches, print};
use a2_stream::{Output, WriteFault};
use std::alloc::Allocator;
use std::marker::Model;

/// The contents of a screen. Contracts see its rows of cells and its switches.
#[derive(Drop)]
pub(crate) struct ScreenCopy {
    picture: Picture,
    switches: Switches,
}

impl Model for ScreenCopy {
    ghost use Rattle.std.specs.Prelude.{◌≡◌};
    ghost use Rattle.a2_page.specs.Kept.{after_refresh};
    ghost use Rattle.a2_monitor_session.specs.Screens.{Screen};

    ghost Value = { Screen };

    ghost view = { λ l. record { rows = l.picture.rows; switches = l.switches } };

    ghost invariant = { λ l. l.picture ≡ after_refresh l.picture.rows };
}

impl ScreenCopy {
    /// Returns the current contents of a machine's screen.
    pub(crate) fn at<A: Allocator + Copy>(machine: &Machine<A>) -> ScreenCopy
        ensures { result ≡ screen_of (world_of_state machine.now.state) }
    {
        let view = machine.view();
        let mut picture = Picture::new();
        picture.refresh(&view);
        ScreenCopy {
            picture,
            switches: view.switches,
        }
    }

    /// Returns whether a machine's screen still has these contents.
    pub(crate) fn is_at<A: Allocator + Copy>(&self, machine: &Machine<A>) -> bool
        ensures { (result ≡ true) ↔ IsSameScreen self.now (screen_of (world_of_state machine.now.state)) }
    {
        let view = machine.view();
        self.switches == view.switches && self.picture.fits(&view)
    }
}

/// Writes the picture of a machine's screen, if requested.
pub(crate) fn put_screen<A: Allocator + Copy, W: Output>(
    machine: &Machine<A>,
    is_asked: bool,
    writer: &mut W,
) -> Result<(), WriteFault>
    ensures { SendsOrBreaks (W.taker writer.old) (W.taker writer.new) result
        (screen_where is_asked (world_of_state machine.now.state)) }
{
    if is_asked {
        print(&machine.view(), writer)
    } else {
        Ok(())
    }
}
