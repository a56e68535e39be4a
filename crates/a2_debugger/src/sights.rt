//! The sights that a debugger's command looks for in a run.

use crate::alerts::Alerts;
use crate::stops::{Break, Moment, Watch, are_changed, is_at_break, is_watch_changed};
use a2_burst::StepView;
use a2_history::{Lookout, SearchTarget};
use a2_machine::Machine;
use std::alloc::Allocator;

/// Worlds with PC at an address.
#[derive(Clone, Copy)]
pub struct At {
    pub address: u16,
}

impl SearchTarget for At {
    ghost use Rattle.std.specs.Prelude.{◌==◌};

    ghost is_found_in = { λ at world. world.registers.pc == at.address };

    fn is_found_in<A: Allocator + Copy>(&self, machine: &Machine<A>) -> bool {
        machine.regs().pc == self.address
    }
}

impl Lookout for At {
    ghost use Rattle.std.specs.Prelude.{◌==◌};

    ghost alarms = { λ at shown. shown.look.next_pc == at.address };

    #[inline(always)]
    fn alarms(&self, look: StepView, _ram: &[u8]) -> bool {
        look.next_pc == self.address
    }
}

/// Worlds at a breakpoint, or in which something watched differs from a machine before.
#[derive(Clone, Copy)]
pub struct Stops<'a, B: Allocator> {
    pub breaks: &'a [Break],
    pub watches: &'a [Watch],
    pub before: &'a Machine<B>,
}

impl<B: Allocator + Copy> SearchTarget for Stops<'_, B> {
    ghost use Rattle.a2_machine.specs.State.{world_of_state};
    ghost use Rattle.a2_debugger.specs.Stops.{is_stop};

    ghost is_found_in = { λ stops world. is_stop stops.breaks.now stops.watches.now (world_of_state stops.before.now.state) world };

    fn is_found_in<A: Allocator + Copy>(&self, machine: &Machine<A>) -> bool {
        let moment = Moment::of(machine);
        is_at_break(self.breaks, &moment)
            || are_changed(self.watches, &Moment::of(self.before), &moment)
    }
}

/// The alarm for possible stops: a step that reaches a breakpoint whose condition holds, or a step that may have changed something
/// watched and after which it differs.
#[derive(Drop)]
pub struct Alarm<'a, B: Allocator> {
    pub alerts: Alerts<'a>,
    pub stops: Stops<'a, B>,
}

impl<B: Allocator + Copy> Alarm<'_, B> {
    ghost use Rattle.std.specs.Prelude.{◌≡◌, ◌&&◌, slice_get};
    ghost use Rattle.std.specs.List.{list_any};
    ghost use Rattle.a2_machine.specs.State.{world_of_state};
    ghost use Rattle.a2_debugger.specs.Alerts.{is_marked, moment_after};
    ghost use Rattle.a2_debugger.specs.Stops.{is_hit, is_watch_changed as is_watch_changed_of, moment_of};

    // Whether a step reaches a breakpoint whose condition holds.
    #[inline(always)]
    fn reaches_break(&self, look: StepView, ram: &[u8]) -> bool
        ensures { result ≡ (is_marked self.now.alerts.stops look.next_pc
            && list_any (is_hit (moment_after (record { look = look; ram = slice_get ram.now }))) self.now.stops.breaks.now) }
    {
        self.alerts.has_stop(look.next_pc)
            && is_at_break(self.stops.breaks, &Moment::following(look, ram))
    }

    // Whether a step may have changed something watched, and it differs after the step.
    #[inline(always)]
    fn changed_watched(&self, look: StepView, ram: &[u8]) -> bool
        ensures { result ≡ (is_marked self.now.alerts.stores look.pc
            && list_any (is_watch_changed_of (moment_of (world_of_state self.now.stops.before.now.state))
            (moment_after (record { look = look; ram = slice_get ram.now }))) self.now.stops.watches.now) }
    {
        self.alerts.may_change(look.pc)
            && are_changed(
                self.stops.watches,
                &Moment::of(self.stops.before),
                &Moment::following(look, ram),
            )
    }
}

impl<B: Allocator + Copy> Lookout for Alarm<'_, B> {
    ghost use Rattle.a2_machine.specs.State.{world_of_state};
    ghost use Rattle.a2_debugger.specs.Alerts.{alarms as alarms_of};

    ghost alarms = { λ alarm shown. alarms_of alarm.alerts alarm.stops.breaks.now alarm.stops.watches.now
        (world_of_state alarm.stops.before.now.state) shown };

    #[inline(always)]
    fn alarms(&self, look: StepView, ram: &[u8]) -> bool {
        self.reaches_break(look, ram) || self.changed_watched(look, ram)
    }
}

/// Worlds in which a routine has returned, given by the stack pointer before its JSR; and the worlds of stops.
#[derive(Drop)]
pub struct Left<'a, B: Allocator> {
    pub s: u8,
    pub alarm: Alarm<'a, B>,
}

impl<B: Allocator + Copy> SearchTarget for Left<'_, B> {
    ghost use Rattle.a2_machine.specs.State.{world_of_state};
    ghost use Rattle.a2_debugger.specs.Stops.{is_stop};
    ghost use Rattle.a2_debugger.specs.Inspections.{is_left};

    ghost is_found_in = { λ left world. is_left left.s (is_stop left.alarm.stops.breaks.now left.alarm.stops.watches.now
        (world_of_state left.alarm.stops.before.now.state)) world };

    fn is_found_in<A: Allocator + Copy>(&self, machine: &Machine<A>) -> bool {
        machine.regs().s >= self.s || self.alarm.stops.is_found_in(machine)
    }
}

impl<B: Allocator + Copy> Lookout for Left<'_, B> {
    ghost use Rattle.std.specs.Prelude.{◌||◌, nat_le};
    ghost use Rattle.a2_machine.specs.State.{world_of_state};
    ghost use Rattle.a2_debugger.specs.Alerts.{alarms as alarms_of};

    ghost alarms = { λ left shown. nat_le left.s shown.look.next_s || alarms_of left.alarm.alerts left.alarm.stops.breaks.now
        left.alarm.stops.watches.now (world_of_state left.alarm.stops.before.now.state) shown };

    #[inline(always)]
    fn alarms(&self, look: StepView, ram: &[u8]) -> bool {
        look.next_s >= self.s || self.alarm.alarms(look, ram)
    }
}

/// Worlds in which what is watched differs from a machine before.
#[derive(Drop)]
pub struct Changed<'a, B: Allocator> {
    pub watch: Watch,
    pub before: &'a Machine<B>,
}

impl<B: Allocator + Copy> SearchTarget for Changed<'_, B> {
    ghost use Rattle.a2_machine.specs.State.{world_of_state};
    ghost use Rattle.a2_debugger.specs.Stops.{is_changed_in as is_changed_in_of};

    ghost is_found_in = { λ changed world. is_changed_in_of (world_of_state changed.before.now.state) world changed.watch };

    fn is_found_in<A: Allocator + Copy>(&self, machine: &Machine<A>) -> bool {
        is_watch_changed(&self.watch, &Moment::of(self.before), &Moment::of(machine))
    }
}
