//! Laws about the meaning of scripts. The functions do nothing: their contracts are the laws.

ghost use Rattle.a2_scripts.specs.Laws.{OneScriptError, ScriptWithErrorHasNoOutput, EachScriptHasOutput, OneScriptOutput};
ghost use Rattle.a2_scripts.specs.Laws.{OneDebugError, DebuggingWithErrorHasNoOutput, EachDebuggingHasOutput};
ghost use Rattle.a2_scripts.specs.Laws.{ErrorOrDebugged, OneDebugOutput};

/// A script of Monitor lines has either one error or one output.
pub fn a_script_has_one_output()
    ensures refusal { OneScriptError }
    ensures refused { ScriptWithErrorHasNoOutput }
    ensures each { EachScriptHasOutput }
    ensures one { OneScriptOutput }
{}

/// A source with a script of debugger lines has either one error or one output, never both and never neither. The error
/// is the one of the source or, if the source has a program, the one of the script.
pub fn a_debugging_script_has_one_output()
    ensures refusal { OneDebugError }
    ensures refused { DebuggingWithErrorHasNoOutput }
    ensures each { EachDebuggingHasOutput }
    ensures either { ErrorOrDebugged }
    ensures one { OneDebugOutput }
{}
