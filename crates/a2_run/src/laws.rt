//! Laws about what source texts mean. The functions do nothing: their contracts are the laws.

ghost use Rattle.a2_run.specs.Laws.{FreeRunsAreGuardedRuns, OneRefusal, RefusedHasNoProgram, RefusedHasNoRun};
ghost use Rattle.a2_run.specs.Laws.{RefusedHasNoObjectLines, RefusedOrProgram, OneCause, OneOutput, OneObjectText};
ghost use Rattle.a2_run.specs.Laws.{EachProgramRuns, EachProgramHasObjectLines};

/// For every source text, list of keys, step limit and option: if the text's guarded run ends by a cause other than `CodeWrite` and
/// `OffStatement`, its free run ends by the same cause and writes the same output.
pub fn a_free_run_is_the_guarded_run()
    ensures { FreeRunsAreGuardedRuns }
{}

/// A text of any bytes has an error or a program, and never both. It has at most one first error, whether of size, grammar or layout.
/// A text with an error has no program, and so no run and no object lines.
pub fn a_text_is_refused_or_means_a_program()
    ensures one { OneRefusal }
    ensures no_program { RefusedHasNoProgram }
    ensures no_run { RefusedHasNoRun }
    ensures no_lines { RefusedHasNoObjectLines }
    ensures either { RefusedOrProgram }
{}

/// A text that has a program has a run with any keys, limit and options, and it has object lines. Its run with given keys, limit and
/// options has exactly one cause and one output, and its object lines are exactly one text. So there is always something that the
/// calls must write, and they have no choice.
pub fn a_text_means_one_output()
    ensures runs { EachProgramRuns }
    ensures cause { OneCause }
    ensures output { OneOutput }
    ensures written { EachProgramHasObjectLines }
    ensures object_text { OneObjectText }
{}
