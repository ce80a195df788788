// The rows of a report.
use mx_base::{Bytes, Hostgroup};
use pin_classifier::ClassName;

/// What a report says of the lines of one digest and one class.
#[derive(Drop)]
pub struct ReportRow {
    /// How many lines there are.
    pub count: u64,
    pub class: ClassName,
    /// Where the rules send the first of them.
    pub hostgroup: Hostgroup,
    pub digest: Bytes,
}
