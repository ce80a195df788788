// A law of reports, for whoever stands on this crate.
ghost use Rattle.std.specs.Prelude.{◌≡◌, ℕ, Bool, List};
ghost use Rattle.std.specs.List.{list_any};
ghost use Rattle.query_digest.specs.Digest.{digest_of};
ghost use Rattle.query_rules.specs.declared.rule.Rule.{Rule};
ghost use Rattle.audit_report.specs.declared.ask.AuditAsk.{AuditAsk};
ghost use Rattle.audit_report.specs.declared.row.ReportRow.{ReportRow};
ghost use Rattle.audit_report.specs.Report.{report_of};

/// The digests of a report are those of its lines: a test finds one among the rows exactly where it finds one among the lines.
pub fn digests_stay()
    ensures { (test : List ℕ → Bool) (rules : List Rule) (ask : AuditAsk) (lines : List (List ℕ)) → list_any (λ (row : ReportRow). test row.digest) (report_of rules ask lines) ≡ list_any (λ line. test (digest_of line)) lines }
{}
