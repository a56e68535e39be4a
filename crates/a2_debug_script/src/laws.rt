//! Laws about the meaning of lines and calls. The functions do nothing: their contracts are the laws.

ghost use Rattle.a2_debug_script.specs.Laws.{OneSession, EachLineHasAnswer, KeysStayPast, NeverBoth, OneAnswer, OneLineError};
ghost use Rattle.a2_debug_script.specs.Laws.{EachCallHasAnswer, OneCallAnswer, EachListHasAnswers, OneListOfAnswers};

/// If no key was typed at a later count than the current one, each line has either an answer or an error, never both.
/// This condition holds at the start and stays true. A line has at most one answer or error: debuggers that look alike
/// answer it with the same text, or reject it for the same reason, and still look alike afterwards. Debuggers that look
/// alike represent the same session.
pub fn each_line_has_one_answer()
    ensures session { OneSession }
    ensures each { EachLineHasAnswer }
    ensures past { KeysStayPast }
    ensures never_both { NeverBoth }
    ensures one { OneAnswer }
    ensures refusal { OneLineError }
{}

/// In the same way each call has exactly one answer, which may be an error, and each list of calls has exactly one list
/// of answers.
pub fn each_call_has_one_answer()
    ensures each { EachCallHasAnswer }
    ensures one { OneCallAnswer }
    ensures each_list { EachListHasAnswers }
    ensures one_list { OneListOfAnswers }
{}
