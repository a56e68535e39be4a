//! A theorem about programs that wait for keys. The call does nothing: its contract is the theorem.

ghost use Rattle.a2_monitor_session.specs.Waits.{WaitingIsTyping};

/// Suppose that the Monitor calls a program that waits for keys and continues when they are typed. Its run is the one run in
/// which these keys are typed after the steps at which it waits, as defined by [`a2_timed_keys::ended_typed`], with the same
/// limit for the whole run.
pub fn waiting_is_typing()
    ensures { WaitingIsTyping }
{}
