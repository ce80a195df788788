// Lines of cases, and their answers.
use crate::case::Case;
use crate::fault::CaseFault;
use std::alloc::Global;
use std::io;

/// Reads cases from stdin and prints what `answer` gives for each, a line for each line. A line that is empty or begins with
/// `#` is copied. `bad case` is printed where `answer` says Bad and where it leaves a field, and `out of memory` where
/// memory is refused; the lines behind go on.
pub fn run<R, F>(rt: &R, answer: F) -> io::Result<()>
where
    R: Input + Print + AllocGlobal,
    F: Fn(Global, &mut Case<'_>) -> Result<String, CaseFault>,
    requires { F.IsAlwaysCallable answer }
{
    for line in rt.lines(rt.alloc()) {
        show_line(rt, &line?, &answer)?;
    }
    Ok(())
}

// Copies a line, or prints the answer to its case.
fn show_line<R, F>(rt: &R, line: &str, answer: &F) -> io::Result<()>
where
    R: Print + AllocGlobal,
    F: Fn(Global, &mut Case<'_>) -> Result<String, CaseFault>,
    requires { F.IsAlwaysCallable answer.now }
{
    if line.is_empty() || line.starts_with('#') {
        return println!(rt; "{line}");
    }
    let mut case = Case::of(line);
    let answered = answer(rt.alloc(), &mut case);
    println!(rt; "{}", text_of(&answered, case.is_done()))
}

// What is printed for a case, whose fields are all read or not.
fn text_of(answered: &Result<String, CaseFault>, is_done: bool) -> &str {
    match answered {
        Ok(text) if is_done => text.as_str(),
        Err(CaseFault::OutOfMemory) => "out of memory",
        _ => "bad case",
    }
}
