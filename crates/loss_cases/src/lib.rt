//! Worked logs of losses: each keeps what the router promises, by the test.
#![tactic(auto)]

ghost use Rattle.router_promises.specs.Headline.{Keeps};
ghost use Rattle.loss_cases.specs.Ending.{capture_log, in_capture, in_reset, in_transaction, reset_log, transaction_log};
ghost use Rattle.loss_cases.specs.Lost.{in_login, in_question, in_step, in_work, login_log, question_log, step_log, work_log};

use promise_tests::kept_by_test;

/// A link is lost in a step that is nobody's: nobody is told, and the statement goes on another one.
pub fn lost_in_step()
    ensures { Keeps in_step step_log }
{
    kept_by_test();
}

/// It is lost as the reply was read in part, of which nothing was passed on: 9101, and the client goes on.
pub fn lost_in_work()
    ensures { Keeps in_work work_log }
{
    kept_by_test();
}

/// A write of a statement's rest fails: 9101.
pub fn lost_in_question()
    ensures { Keeps in_question question_log }
{
    kept_by_test();
}

/// It is lost while nobody uses it, and the next in the router's login: 9103.
pub fn lost_in_login()
    ensures { Keeps in_login login_log }
{
    kept_by_test();
}

/// It is lost as an insert id is asked for: the client ends.
pub fn lost_in_capture()
    ensures { Keeps in_capture capture_log }
{
    kept_by_test();
}

/// It is lost in a transaction, between two statements: the client ends.
pub fn lost_in_transaction()
    ensures { Keeps in_transaction transaction_log }
{
    kept_by_test();
}

/// A client is lost in a transaction, and its link in the reset: nobody is told.
pub fn lost_in_reset()
    ensures { Keeps in_reset reset_log }
{
    kept_by_test();
}
