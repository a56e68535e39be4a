//! A run that the requests of an editor move.

ghost use Rattle.std.specs.Prelude.{◌≡◌, IfOk};
ghost use Rattle.a2_machine.specs.State.{world_of_state};
ghost use Rattle.a2_history.specs.Going.{here};
ghost use Rattle.a2_dap.specs.Requests.{Handles, Reaches, Travels};

use crate::breakpoints::{Place, refuse_marks, set_marks, set_watches, watch_info};
use crate::changing::{
    set, shown_value, target_setting, targets, variable_setting, write, writing_in,
};
use crate::evaluating::put_value;
use crate::marking::{Mark, MarkKind, set_stops};
use crate::memory::{instructions, memory};
use crate::moving::{
    Journey, Stop, go_back, go_on, step_once, step_once_back, step_out, step_over,
};
use crate::reports::{Standing, end_of, exception, report_stop, threads};
use crate::stacks::{file_name, stack};
use a2_dap_messages::{
    Command, Replies, Request, items_in, number_in, scopes, text_in, text_of, usual_causes,
    variables,
};
use a2_debugger::{Inspector, Outcome, Setting};
use a2_machine::{Cause, Machine};
use a2_stream::Kept;
use a2_symbols::Span;
use a2_text::first_word;
use serde_json::{Value, json};
use std::alloc::{AllocError, Global};

/// What follows a request.
#[derive(Clone, Copy, Debug, PartialEq, Eq)]
pub enum Next {
    /// The next request.
    Waiting,
    /// The run from its start.
    Restart,
    /// The end of the session.
    End,
}

/// A run of a source that the requests of an editor move, with its breakpoints.
pub struct Session<'a> {
    alloc: Global,
    inspector: Inspector<'a>,
    // The path of the source, as the editor gave it.
    path: String,
    marks: Vec<Mark>,
    watches: Vec<Span>,
    // The causes at which the run stops in place of ending.
    filters: Vec<Cause>,
    // Why the run ended, if it stopped last at its end.
    end: Option<Cause>,
    // The number of the next breakpoint.
    next_id: u64,
    first_line: u64,
    // The most steps of a request.
    most: u64,
    stops_on_entry: bool,
}

// Not derived, only for the prover: it treats this as one call, and a derived `drop` field by field.
impl<'a> Drop for Session<'a> {
    fn drop(self) {
        let Session {
            alloc: _,
            inspector: _,
            path: _,
            marks: _,
            watches: _,
            filters: _,
            end: _,
            next_id: _,
            first_line: _,
            most: _,
            stops_on_entry: _,
        } = self;
    }
}

/// How a session begins.
#[derive(Clone, Copy)]
pub struct Start<'p> {
    /// The path of the source, as the editor gave it.
    pub path: &'p str,
    /// The number of the first line for the editor, 0 or 1.
    pub first_line: u64,
    /// The most steps of a request.
    pub most: u32,
    /// Whether the run stops before its first step.
    pub stops_on_entry: bool,
}

// Moves a run as a request asks.
fn move_run(inspector: &mut Inspector<'_>, journey: &mut Journey<'_>, command: Command) -> Stop
    ensures { Travels inspector.old inspector.new }
{
    match command {
        Command::Continue => go_on(inspector, journey),
        Command::Next => step_over(inspector, journey),
        Command::StepOut => step_out(inspector, journey),
        Command::ReverseContinue => go_back(inspector, journey),
        Command::StepBack => step_once_back(inspector, journey),
        _ => step_once(inspector, journey),
    }
}

// Returns the cause with a name.
fn cause_named(name: &str) -> Option<Cause> {
    for cause in Cause::ALL {
        if cause.name() == name.as_bytes() {
            return Some(cause);
        }
    }
    None
}

// Returns the causes that a request names.
fn causes_in(alloc: Global, request: &Request) -> Result<Vec<Cause>, AllocError> {
    let mut causes = Vec::new(alloc);
    for item in items_in(request.arguments(), "filters") {
        if let Some(cause) = cause_named(item.as_str().unwrap_or("")) {
            causes.push(cause)?;
        }
    }
    Ok(causes)
}

// Answers a line of the debugger, and returns its answer.
fn line_answer(
    alloc: Global,
    inspector: &mut Inspector<'_>,
    line: &[u8],
) -> Result<String, AllocError>
    ensures { Reaches inspector.old inspector.new }
{
    let mut text = Kept::new(alloc);
    let _ = inspector.answer_beside(line, &mut text);
    text_of(alloc, text.as_slice())
}

// Answers an expression with a text.
fn respond_text(
    alloc: Global,
    text: &str,
    request: &Request,
    replies: &mut Replies,
) -> Result<(), AllocError> {
    let body = json!(in alloc; {"result": text, "variablesReference": 0u64})?;
    replies.respond(request, body)
}

// Answers an expression with a text, if there was memory for it.
fn respond_said(
    alloc: Global,
    text: Result<String, AllocError>,
    request: &Request,
    replies: &mut Replies,
) -> Result<(), AllocError> {
    respond_text(alloc, text?.as_str(), request, replies)
}

// Answers a request with a value, if there was memory for it.
fn respond_answer(
    answer: Result<Value, AllocError>,
    request: &Request,
    replies: &mut Replies,
) -> Result<(), AllocError> {
    replies.respond(request, answer?)
}

// Returns whether there was memory for both.
fn both(first: Result<(), AllocError>, second: Result<(), AllocError>) -> Result<(), AllocError> {
    first?;
    second
}

// Returns what follows a request that was answered.
fn following(answered: Result<(), AllocError>, next: Next) -> Result<Next, AllocError> {
    answered?;
    Ok(next)
}

// Returns the routines of a run, for the editor.
fn stack_of(
    alloc: Global,
    inspector: &mut Inspector<'_>,
    path: &str,
    first_line: u64,
) -> Result<Value, AllocError>
    ensures { inspector.new ≡ inspector.old }
{
    let entries = inspector.entered()?;
    let place = place_in(inspector, first_line);
    stack(alloc, &place, path, inspector.machine(), entries.as_slice())
}

// Returns the source of a run.
fn place_in<'i>(inspector: &'i Inspector<'_>, first_line: u64) -> Place<'i> {
    Place {
        program: inspector.program(),
        lines: inspector.lines().len(),
        first_line,
    }
}

// What the console answers to an expression that has no value.
const NO_VALUE: &str =
    "not a register, a name of the source, a line such as 12: or an address such as $300";

// What a request is answered whose new value is not valid.
const VALUE_FORM: &str =
    "not a value for this variable: a number such as $1F, 0x1F or 31, up to 255, for a flag 0 or 1; for PC a place";

// What a request is answered whose bytes cannot be written.
const WRITING_FORM: &str = "only bytes of $0000 to $BFFF can be written, at most 256 at once";

// What a request is answered that could not be noted.
const NO_ROOM: &str = "not changed: there is not enough memory";

const WRITTEN_IN_PART: &str =
    "only the first of these bytes were written: there is not enough memory";

// Returns the answer that so many bytes were written.
fn written(alloc: Global, bytes: u64) -> Result<Value, AllocError> {
    json!(in alloc; {"bytesWritten": bytes})
}

// Returns whether the line of a debugger sets something, which is no step.
fn is_setting(line: &[u8]) -> bool {
    match first_word(line) {
        Some((word, _)) => {
            word.eq_ignore_ascii_case(b"SET") || word.eq_ignore_ascii_case(b"GOTO")
        }
        None => false,
    }
}

// Returns the kind of breakpoints that a request sets.
fn kind_of(command: Command) -> MarkKind {
    match command {
        Command::SetFunctionBreakpoints => MarkKind::Function,
        Command::SetInstructionBreakpoints => MarkKind::Instruction,
        _ => MarkKind::Line,
    }
}

// Whether the breakpoints of a request are in the source with this path.
fn is_source(request: &Request, path: &str) -> bool {
    match request.arguments().get("source") {
        Some(source) => match text_in(source, "path") {
            Some(other) => file_name(other) == file_name(path),
            None => true,
        },
        None => true,
    }
}

impl<'a> Session<'a> {
    /// Returns a session with a run that was launched.
    pub fn new(
        alloc: Global,
        inspector: Inspector<'a>,
        start: Start<'_>,
    ) -> Result<Session<'a>, AllocError>
        ensures { IfOk result (λ session. session.inspector ≡ inspector.entry) }
    {
        Ok(Session {
            alloc,
            inspector,
            path: String::from_str(alloc, start.path)?,
            marks: Vec::new(alloc),
            watches: Vec::new(alloc),
            filters: usual_causes(alloc)?,
            end: None,
            next_id: 1,
            first_line: start.first_line,
            most: u64::from(start.most),
            stops_on_entry: start.stops_on_entry,
        })
    }

    /// Begins again with a run at its start, and with the breakpoints as they are.
    pub fn restart(
        &mut self,
        inspector: Inspector<'a>,
        replies: &mut Replies,
    ) -> Result<(), AllocError>
        ensures { Travels inspector.entry self.new.inspector }
    {
        self.inspector = inspector;
        self.apply_stops();
        self.begin(replies)
    }

    // Moves the run, and reports its stop.
    fn travel(&mut self, command: Command, replies: &mut Replies) -> Result<(), AllocError>
        ensures { Travels self.old.inspector self.new.inspector }
    {
        let mut journey = Journey {
            marks: &mut self.marks,
            watches: self.watches.as_slice(),
            most: self.most,
            told: Kept::new(self.alloc),
        };
        let stop = move_run(&mut self.inspector, &mut journey, command);
        self.end = end_of(stop);
        let standing = Standing {
            stop,
            filters: self.filters.as_slice(),
            told: journey.told.as_slice(),
        };
        report_stop(self.alloc, &mut self.inspector, standing, replies)
    }

    // Reports a stop.
    fn report(&mut self, stop: Stop, replies: &mut Replies) -> Result<(), AllocError>
        ensures { Travels self.old.inspector self.new.inspector }
    {
        self.end = end_of(stop);
        let standing = Standing {
            stop,
            filters: self.filters.as_slice(),
            told: b"",
        };
        report_stop(self.alloc, &mut self.inspector, standing, replies)
    }

    // Begins the run, or reports that it stops before its first step.
    fn begin(&mut self, replies: &mut Replies) -> Result<(), AllocError>
        ensures { Travels self.old.inspector self.new.inspector }
    {
        if self.stops_on_entry {
            return self.report(Stop::Start, replies);
        }
        self.travel(Command::Continue, replies)
    }

    // Sets the breakpoints of a request.
    fn set_marks_of(&mut self, request: &Request) -> Result<Value, AllocError>
        ensures { self.new.inspector ≡ self.old.inspector }
    {
        if !is_source(request, self.path.as_str()) {
            return refuse_marks(
                self.alloc,
                request,
                "this is not the source that was launched",
            );
        }
        let place = place_in(&self.inspector, self.first_line);
        let (answer, next_id) = set_marks(
            self.alloc,
            &place,
            &mut self.marks,
            self.next_id,
            kind_of(request.command),
            request,
        )?;
        self.next_id = next_id;
        Ok(answer)
    }

    // Sets the breakpoints of a request for the session, but not yet for its run.
    fn note_stops(&mut self, request: &Request) -> Result<Value, AllocError>
        ensures { self.new.inspector ≡ self.old.inspector }
    {
        match request.command {
            Command::SetDataBreakpoints => set_watches(
                self.alloc,
                self.inspector.program(),
                &mut self.watches,
                request,
            ),
            _ => self.set_marks_of(request),
        }
    }

    // Sets the breakpoints of the session for its run.
    fn apply_stops(&mut self)
        ensures { Travels self.old.inspector self.new.inspector }
    {
        set_stops(
            &mut self.inspector,
            self.marks.as_slice(),
            self.watches.as_slice(),
        );
    }

    // Answers a request that sets breakpoints.
    fn set(&mut self, request: &Request, replies: &mut Replies) -> Result<(), AllocError>
        ensures { Travels self.old.inspector self.new.inspector }
    {
        let answer = self.note_stops(request);
        self.apply_stops();
        respond_answer(answer, request, replies)
    }

    // Answers a line of the debugger. The breakpoints remain those of the editor.
    fn say(&mut self, line: &str) -> Result<String, AllocError>
        ensures { Reaches self.old.inspector self.new.inspector }
    {
        let text = line_answer(self.alloc, &mut self.inspector, line.as_bytes());
        self.apply_stops();
        text
    }

    // Reports a step, so that the editor shows the run anew: if the run has moved since it had made `steps` steps, or if a line
    // was to set something.
    #[tactic(auto, using(crate::proofs::Travelling::stays))]
    fn report_move(
        &mut self,
        steps: u64,
        sets: bool,
        replies: &mut Replies,
    ) -> Result<(), AllocError>
        ensures { Travels self.old.inspector self.new.inspector }
    {
        if sets || self.inspector.machine().steps() != steps {
            self.report(Stop::Stepped, replies)
        } else {
            Ok(())
        }
    }

    // Answers the line of a debugger, which may move the run.
    fn converse(
        &mut self,
        line: &str,
        request: &Request,
        replies: &mut Replies,
    ) -> Result<(), AllocError>
        ensures { Reaches self.old.inspector self.new.inspector }
    {
        let steps = self.inspector.machine().steps();
        let text = self.say(line);
        let answered = respond_said(self.alloc, text, request, replies);
        let reported = self.report_move(steps, is_setting(line.as_bytes()), replies);
        both(answered, reported)
    }

    // Answers the question for a value.
    fn show_value(
        &self,
        word: &str,
        request: &Request,
        replies: &mut Replies,
    ) -> Result<(), AllocError> {
        let mut text = Kept::new(self.alloc);
        let found = put_value(
            self.inspector.program(),
            self.inspector.machine(),
            word.as_bytes(),
            &mut text,
        );
        if !matches!(found, Ok(true)) {
            return replies.refuse(request, NO_VALUE);
        }
        let text = text_of(self.alloc, text.as_slice())?;
        respond_text(self.alloc, text.as_str(), request, replies)
    }

    // Answers an expression.
    #[tactic(auto, using(crate::proofs::Reaching::stays))]
    fn evaluate(&mut self, request: &Request, replies: &mut Replies) -> Result<(), AllocError>
        ensures { Reaches self.old.inspector self.new.inspector }
    {
        let expression = text_in(request.arguments(), "expression").unwrap_or("");
        match text_in(request.arguments(), "context") {
            Some("repl") | None => self.converse(expression, request, replies),
            _ => self.show_value(expression, request, replies),
        }
    }

    // Answers a request with a value, or refuses it.
    fn reply(
        &self,
        answer: Option<Value>,
        request: &Request,
        replies: &mut Replies,
    ) -> Result<(), AllocError> {
        match answer {
            Some(answer) => replies.respond(request, answer),
            None => replies.refuse(request, "the arguments of this request are not valid"),
        }
    }

    // Answers a request that changes nothing.
    fn show(&self, request: &Request, replies: &mut Replies) -> Result<(), AllocError> {
        let (alloc, machine) = (self.alloc, self.inspector.machine());
        let place = place_in(&self.inspector, self.first_line);
        let arguments = request.arguments();
        let answer = match request.command {
            Command::Threads => Some(threads(alloc)?),
            Command::Scopes => Some(scopes(alloc)?),
            Command::Variables => {
                let group = number_in(arguments, "variablesReference").unwrap_or(0);
                Some(variables(alloc, place.program, machine, group)?)
            }
            Command::ReadMemory => memory(alloc, machine, arguments)?,
            Command::Disassemble => instructions(alloc, &place, machine, arguments)?,
            Command::DataBreakpointInfo => Some(watch_info(alloc, place.program, request)?),
            Command::Pause => Some(json!(in alloc; {})?),
            Command::GotoTargets => targets(alloc, &place, arguments)?,
            Command::ExceptionInfo => match self.end {
                Some(cause) => Some(exception(alloc, cause)?),
                None => return replies.refuse(request, "the run is not at its end"),
            },
            _ => return replies.refuse(request, "this request is not supported here"),
        };
        self.reply(answer, request, replies)
    }

    /// Returns the machine at the current position.
    pub fn machine(&self) -> &Machine<Global>
        ensures { world_of_state result.now.state ≡ here self.now.inspector.track }
    {
        self.inspector.machine()
    }

    // Answers a request that moves the run.
    #[tactic(auto, using(crate::proofs::Travelling::stays))]
    fn travel_for(&mut self, request: &Request, replies: &mut Replies) -> Result<(), AllocError>
        ensures { Travels self.old.inspector self.new.inspector }
    {
        replies.accept(request)?;
        match request.command {
            Command::ConfigurationDone => self.begin(replies),
            command => self.travel(command, replies),
        }
    }

    // Sets the causes at which the run stops in place of ending.
    #[tactic(auto, using(crate::proofs::Travelling::stays))]
    fn set_filters(&mut self, request: &Request, replies: &mut Replies) -> Result<(), AllocError>
        ensures { Travels self.old.inspector self.new.inspector }
    {
        self.filters = causes_in(self.alloc, request)?;
        replies.accept(request)
    }

    // Answers the question for the routines.
    fn show_stack(&mut self, request: &Request, replies: &mut Replies) -> Result<(), AllocError>
        ensures { Travels self.old.inspector self.new.inspector }
    {
        let body = stack_of(
            self.alloc,
            &mut self.inspector,
            self.path.as_str(),
            self.first_line,
        );
        respond_answer(body, request, replies)
    }

    // Answers a request whose setting was made, with the value that is set, or refuses it if there was no memory to note it.
    fn show_set(
        &self,
        outcome: Outcome,
        request: &Request,
        replies: &mut Replies,
    ) -> Result<(), AllocError> {
        if !matches!(outcome, Outcome::Changed(_)) {
            return replies.refuse(request, NO_ROOM);
        }
        let (program, machine) = (self.inspector.program(), self.inspector.machine());
        let value = shown_value(self.alloc, program, machine, request.arguments())?;
        replies.respond(request, value)
    }

    // Sets a variable.
    #[tactic(auto, using(crate::proofs::Reaching::stays))]
    fn set_variable(&mut self, request: &Request, replies: &mut Replies) -> Result<(), AllocError>
        ensures { Reaches self.old.inspector self.new.inspector }
    {
        match variable_setting(self.inspector.program(), request.arguments()) {
            Some(setting) => {
                let outcome = set(&mut self.inspector, setting);
                self.show_set(outcome, request, replies)
            }
            None => replies.refuse(request, VALUE_FORM),
        }
    }

    // Writes bytes.
    #[tactic(auto, using(crate::proofs::Reaching::stays))]
    fn write_memory(&mut self, request: &Request, replies: &mut Replies) -> Result<(), AllocError>
        ensures { Reaches self.old.inspector self.new.inspector }
    {
        match writing_in(self.alloc, request.arguments())? {
            Some(writing) => {
                let count = write(&mut self.inspector, &writing);
                if count < writing.bytes.len() {
                    return replies.refuse(
                        request,
                        if count == 0 { NO_ROOM } else { WRITTEN_IN_PART },
                    );
                }
                replies.respond(request, written(self.alloc, count as u64)?)
            }
            None => replies.refuse(request, WRITING_FORM),
        }
    }

    // Sets PC, and reports the stop there, or refuses the request if there was no memory to note it.
    fn jump(
        &mut self,
        setting: Setting,
        request: &Request,
        replies: &mut Replies,
    ) -> Result<(), AllocError>
        ensures { Reaches self.old.inspector self.new.inspector }
    {
        let outcome = set(&mut self.inspector, setting);
        if !matches!(outcome, Outcome::Changed(_)) {
            return replies.refuse(request, NO_ROOM);
        }
        let accepted = replies.accept(request);
        let reported = self.report(Stop::Jumped, replies);
        both(accepted, reported)
    }

    // Sets PC to the target of a request.
    #[tactic(auto, using(crate::proofs::Reaching::stays))]
    fn go_to(&mut self, request: &Request, replies: &mut Replies) -> Result<(), AllocError>
        ensures { Reaches self.old.inspector self.new.inspector }
    {
        match target_setting(request.arguments()) {
            Some(setting) => self.jump(setting, request, replies),
            None => replies.refuse(request, "`goto` needs a target of `gotoTargets`"),
        }
    }

    /// Answers a request during a run.
    #[tactic(auto, using(crate::proofs::Reaching::stays, crate::proofs::Travelling::stays))]
    pub fn answer(&mut self, request: &Request, replies: &mut Replies) -> Result<Next, AllocError>
        ensures { Handles request.now.command self.old.inspector self.new.inspector }
    {
        match request.command {
            Command::Continue
            | Command::Next
            | Command::StepIn
            | Command::StepOut
            | Command::StepBack
            | Command::ReverseContinue
            | Command::ConfigurationDone => {
                following(self.travel_for(request, replies), Next::Waiting)
            }
            Command::SetBreakpoints
            | Command::SetFunctionBreakpoints
            | Command::SetInstructionBreakpoints
            | Command::SetDataBreakpoints => following(self.set(request, replies), Next::Waiting),
            Command::SetExceptionBreakpoints => {
                following(self.set_filters(request, replies), Next::Waiting)
            }
            Command::SetVariable => following(self.set_variable(request, replies), Next::Waiting),
            Command::WriteMemory => following(self.write_memory(request, replies), Next::Waiting),
            Command::Goto => following(self.go_to(request, replies), Next::Waiting),
            Command::Evaluate => following(self.evaluate(request, replies), Next::Waiting),
            Command::StackTrace => following(self.show_stack(request, replies), Next::Waiting),
            Command::Restart => following(replies.accept(request), Next::Restart),
            Command::Disconnect => following(replies.accept(request), Next::End),
            _ => following(self.show(request, replies), Next::Waiting),
        }
    }
}
