// The words of a command line that ask for a report.
ghost use Rattle.std.specs.Prelude.{◌≡◌, ◌≤◌, IfSome};
ghost use Rattle.std.specs.Option.{option_map};
ghost use Rattle.proxy_run.specs.ReportWords.{kind_of, report_words, workers_of};
ghost use Rattle.proxy_run.specs.Words.{texts};

use mx_base::read_number_to;

/// What is put of a file of statements.
#[derive(Clone, Copy)]
pub enum ReportKind {
    /// Its report.
    Audit,
    /// The hashes of its digests.
    Learn,
}

/// The names of the files that a report reads, and the number of its workers.
#[derive(Clone, Copy)]
pub struct ReportNames<'a> {
    pub kind: ReportKind,
    pub config: &'a str,
    pub lines: &'a str,
    pub workers: u16,
}

fn kind_of(command: &str) -> Option<ReportKind>
    ensures { result ≡ kind_of command.now }
{
    if command == "audit" {
        Some(ReportKind::Audit)
    } else if command == "learn" {
        Some(ReportKind::Learn)
    } else {
        None
    }
}

// The number of workers that a word says.
fn workers_of(word: &str) -> Option<u16>
    ensures value { result ≡ workers_of word.now }
    ensures some { IfSome result (λ workers. 1 ≤ workers) }
    ensures few { IfSome result (λ workers. workers ≤ 64) }
{
    match read_number_to(64, word.as_bytes()) {
        Some(0) | None => None,
        Some(workers) => Some(workers as u16),
    }
}

/// The report that the words ask for: `audit <config> <lines> <workers>` or `learn <config> <lines> <workers>`.
pub fn report_words(words: &[String]) -> Option<ReportNames<'_>>
    ensures value { option_map (λ names. record { kind = names.kind; config = names.config.now; lines = names.lines.now; workers = names.workers }) result ≡ report_words (texts words.now) }
    ensures some { IfSome result (λ names. 1 ≤ names.workers) }
    ensures few { IfSome result (λ names. names.workers ≤ 64) }
{
    match words {
        [command, config, lines, workers] => {
            let kind = kind_of(command.as_str())?;
            let workers = workers_of(workers.as_str())?;
            Some(ReportNames {
                kind,
                config: config.as_str(),
                lines: lines.as_str(),
                workers,
            })
        }
        _ => None,
    }
}
