//! Worked logs of the promise of shared links are logs of the definitional router, computed.
#![tactic(auto)]

ghost use Rattle.std.specs.Prelude.{◌≡◌, true};
ghost use Rattle.router_cases.specs.Worked as worked;
ghost use Rattle.router_cases.specs.Ended as ended;
ghost use Rattle.shared_cases.specs.Cases.{again, again_log, fixed, fixed_keys};
ghost use Rattle.router_cases.specs.Worked.{router};
ghost use Rattle.shared_cases.specs.Refusals.{by_router, capture_log, full, full_log, in_capture, in_login, in_question, in_reply, in_step, in_transaction, late, late_log, login_log, narrow, nowhere, nowhere_log, offline, question_log, refused, refused_log, reply_log, reset_log, spoilt, spoilt_log, step_log, transaction_log};
ghost use Rattle.shared_cases.specs.Tests.{ours};

/// Each entry of this log is one that the router makes, by what it decides.
pub fn makes_worked_log()
    ensures { ours fixed (worked.terms_with worked.nothing) worked.log ≡ true }
{}

/// So is each entry of a log in which a client quits in a transaction: its session is reset, and its link closed with a QUIT.
pub fn makes_ended_log()
    ensures { ours fixed ended.terms ended.log ≡ true }
{}

/// And of a log in which a prepared statement is executed twice, and reset between, since long data were sent for it.
pub fn makes_executed_log()
    ensures { ours fixed_keys again again_log ≡ true }
{}

/// No server is ONLINE: 9100.
pub fn makes_nowhere()
    ensures { ours (by_router offline) nowhere nowhere_log ≡ true }
{}

/// A statement waits too long: 9102.
pub fn makes_late()
    ensures { ours (by_router router) late late_log ≡ true }
{}

/// A step is refused: 9104, and its link is closed.
pub fn makes_refused()
    ensures { ours (by_router router) refused refused_log ≡ true }
{}

/// Bytes come that are no reply: 9110.
pub fn makes_spoilt()
    ensures { ours (by_router router) spoilt spoilt_log ≡ true }
{}

/// A message is too long to be kept: 9112.
pub fn makes_full()
    ensures { ours (by_router narrow) full full_log ≡ true }
{}

/// A link is lost in a reply: 9101.
pub fn makes_reply()
    ensures { ours (by_router router) in_reply reply_log ≡ true }
{}

/// It is lost as a question is written: 9101.
pub fn makes_question()
    ensures { ours (by_router router) in_question question_log ≡ true }
{}

/// It is lost in a step: the statement goes on another.
pub fn makes_step()
    ensures { ours (by_router router) in_step step_log ≡ true }
{}

/// It is lost in its login: 9103.
pub fn makes_login()
    ensures { ours (by_router router) in_login login_log ≡ true }
{}

/// It is lost as an insert id is asked for: the client ends.
pub fn makes_capture()
    ensures { ours (by_router router) in_capture capture_log ≡ true }
{}

/// It is lost in a transaction: the client ends.
pub fn makes_transaction()
    ensures { ours (by_router router) in_transaction transaction_log ≡ true }
{}

/// A client is lost in a transaction, and its link in the reset.
pub fn makes_reset()
    ensures { ours (by_router router) in_transaction reset_log ≡ true }
{}
