// The words of a command line that ask for a generated load.
ghost use Rattle.std.specs.Prelude.{◌≡◌, ◌≤◌, IfSome};
ghost use Rattle.proxy_run.specs.LoadWords.{ask_by, at_least_one, from_one_to, load_words};
ghost use Rattle.proxy_run.specs.Words.{texts};

use generated_load::LoadAsk;
use mx_base::{read_number, read_number_to};

// A number from 1 to so much.
fn from_one_to(most: u64, word: &str) -> Option<u64>
    ensures value { result ≡ from_one_to most word.now }
    ensures some { IfSome result (λ n. 1 ≤ n) }
    ensures few { IfSome result (λ n. n ≤ most) }
{
    match read_number_to(most, word.as_bytes()) {
        Some(0) | None => None,
        Some(n) => Some(n),
    }
}

fn ask_by(start: &str, clients: &str, statements: &str) -> Option<LoadAsk>
    ensures value { result ≡ ask_by start.now clients.now statements.now }
    ensures some { IfSome result (λ ask. 1 ≤ ask.clients) }
    ensures few { IfSome result (λ ask. ask.clients ≤ 1000) }
    ensures said { IfSome result (λ ask. ask.statements ≤ 100000) }
{
    let start = read_number(start.as_bytes())?;
    let clients = from_one_to(1000, clients)?;
    let statements = from_one_to(100_000, statements)?;
    Some(LoadAsk {
        start,
        clients,
        statements,
    })
}

/// The load that the words ask for: `load <start> <clients> <statements>`.
pub fn load_words(words: &[String]) -> Option<LoadAsk>
    ensures value { result ≡ load_words (texts words.now) }
    ensures some { IfSome result (λ ask. 1 ≤ ask.clients) }
    ensures few { IfSome result (λ ask. ask.clients ≤ 1000) }
    ensures said { IfSome result (λ ask. ask.statements ≤ 100000) }
{
    match words {
        [command, start, clients, statements] if command.as_str() == "load" => {
            ask_by(start.as_str(), clients.as_str(), statements.as_str())
        }
        _ => None,
    }
}
