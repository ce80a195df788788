// Tables of words, and lists that grow.
use check_lines::Answer;

/// What stands beside a word.
pub fn found<T: Copy>(table: &[(&str, T)], word: &str) -> Option<T> {
    for (name, value) in table {
        if *name == word {
            return Some(*value);
        }
    }
    None
}

/// Adds to a list, unless memory is refused.
pub fn add<T: Drop>(answer: &mut Answer, list: &mut Vec<T>, item: T) {
    if list.push(item).is_err() {
        answer.refused();
    }
}
