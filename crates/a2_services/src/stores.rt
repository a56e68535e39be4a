//! Where services may store.

ghost use Rattle.std.specs.Prelude.{◌≡◌};
ghost use Rattle.a2_services.specs.Services.{reach as reach_of, output_reach as output_reach_of, base_reach as base_reach_of, page_reach as page_reach_of};

use crate::Service;
use crate::locations::{LINE_BUFFER, LINE_BUFFER_LAST, PAGE1, PAGE1_LAST};
use crate::rows::{Reach, row_of};
use a2_bus::locations::{BASH, BASL, CH, COLOR, CV, INVFLG, V2};

/// Returns whether a service may store at an address from 0 to $FFFF, whatever the window is. [`call`](crate::call) stores
/// nowhere else.
///
/// The output services may store at $24, $25, $28, $29 and $0400 to $07FF, and GETLN also at $0200 to $02FF. SETINV and SETNORM
/// may store at $32; VTAB at $28 and $29; CLREOL, PLOT, HLINE and VLINE at $0400 to $07FF, and CLREOP there and at $28 and $29.
/// SETCOL may store at $30; CLRSCR at $2D, $30 and $0400 to $07FF. The hooks, KEYIN, WAIT and SCRN store nowhere. This
/// project's profile.
#[tactic(auto, unfolding(crate::specs::Services::reach))]
pub fn reach(service: Service, address: u16) -> bool
    ensures { result ≡ reach_of service address }
{
    match row_of(service).reach {
        Reach::Nowhere => false,
        Reach::Screen => output_reach(address),
        Reach::ScreenAndLine => {
            output_reach(address) || matches!(address, LINE_BUFFER..=LINE_BUFFER_LAST)
        }
        Reach::Mask => address == INVFLG,
        Reach::Base => base_reach(address),
        Reach::Page => page_reach(address),
        Reach::BaseAndPage => base_reach(address) || page_reach(address),
        Reach::Color => address == COLOR,
        Reach::Graphics => address == V2 || address == COLOR || page_reach(address),
    }
}

// Whether the output services may store at the address.
fn output_reach(address: u16) -> bool
    ensures { result ≡ output_reach_of address }
{
    matches!(address, CH..=CV) || base_reach(address) || page_reach(address)
}

// Whether the address is BASL or BASH.
fn base_reach(address: u16) -> bool
    ensures { result ≡ base_reach_of address }
{
    matches!(address, BASL..=BASH)
}

// Whether the address lies on page 1.
fn page_reach(address: u16) -> bool
    ensures { result ≡ page_reach_of address }
{
    matches!(address, PAGE1..=PAGE1_LAST)
}
