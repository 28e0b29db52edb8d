//! What the faults of texts mean. Each law is the contract of a function that does nothing.

ghost use Rattle.std.specs.Prelude.{◌≡◌, ◌≢◌, ◌<◌, ◌≤◌, ◌++◌, ℕ, List, length, drop, Ok, Err, IfErr};
ghost use Rattle.text_scan.specs.declared.Rest.{Rest};
ghost use Rattle.text_scan.specs.declared.token.Token.{Token};
ghost use Rattle.text_scan.specs.FaultKinds.{BadByte, Syntax};
ghost use Rattle.text_scan.specs.Faults.{Fault, ◌on◌};
ghost use Rattle.text_scan.specs.Lines.{end_line_of};
ghost use Rattle.text_scan.specs.Tokens.{tokens_of};
ghost use Rattle.equation.specs.declared.job.Job.{Job};
ghost use Rattle.job_text.specs.declared.stop.Stop.{Stop};
ghost use Rattle.job_text.specs.AfterFaults.{after_in};
ghost use Rattle.job_text.specs.SpelledJobs.{job_in};
ghost use Rattle.fault_laws.specs.CutTexts.{AreWholeLines, EndsTooEarly};

/// A fault stays the fault of the text, whatever stands behind the line feed of its line, as long as that has no bad byte. A bad
/// byte stays whatever stands there.
pub fn faults_stay()
    ensures told { (stop : Stop) (front more other : List ℕ) (tokens : List Token) (fault : Fault)
        → job_in stop (front ++ more) ≡ Err fault → fault.kind ≢ BadByte
        → fault.line < end_line_of 1 front → tokens_of 1 (front ++ other) ≡ Ok tokens
        → job_in stop (front ++ other) ≡ Err fault }
    ensures bad_byte { (stop : Stop) (front more other : List ℕ) (line : ℕ)
        → job_in stop (front ++ more) ≡ Err (BadByte on line) → line < end_line_of 1 front
        → job_in stop (front ++ other) ≡ Err (BadByte on line) }
{}

/// Each fault is on a line of the text, or on the one behind its last line feed.
pub fn faults_are_on_lines()
    ensures { (stop : Stop) (bytes : List ℕ) (fault : Fault) → job_in stop bytes ≡ Err fault
        → (1 ≤ fault.line) × (fault.line ≤ end_line_of 1 bytes) }
{}

/// A text without a bad byte that is cut off behind a line feed, above its fault if it has one, is read, or its fault is that it
/// ends too early: on the line at its end the header is missing, or a line that is due.
pub fn cut_texts_end_too_early()
    ensures { (stop : Stop) (lines more : List ℕ) (tokens : List Token) (fault : Fault)
        → AreWholeLines lines → tokens_of 1 (lines ++ more) ≡ Ok tokens
        → IfErr (job_in stop (lines ++ more)) (λ f. end_line_of 1 lines ≤ f.line)
        → job_in stop lines ≡ Err fault → EndsTooEarly (end_line_of 1 lines) fault }
{}

/// A fault of the matrices behind a job stays, whatever stands behind the line feed of its line, as long as that has no bad byte.
pub fn after_faults_stay()
    ensures { (front more other : List ℕ) (rest : Rest) (job : Job) (tokens : List Token)
        (fault : Fault) → rest.at ≤ length front
        → after_in (front ++ more) rest job ≡ Err fault → fault.kind ≢ BadByte
        → fault.line < end_line_of rest.line (drop rest.at front)
        → tokens_of rest.line (drop rest.at (front ++ other)) ≡ Ok tokens
        → after_in (front ++ other) rest job ≡ Err fault }
{}

/// Matrices behind a job that are cut off behind a line feed, above their fault if they have one, are read, or a line is due at the
/// end.
pub fn cut_matrices_end_too_early()
    ensures { (lines more : List ℕ) (rest : Rest) (job : Job) (tokens : List Token)
        (fault : Fault) → rest.at ≤ length lines → AreWholeLines (drop rest.at lines)
        → tokens_of rest.line (drop rest.at (lines ++ more)) ≡ Ok tokens
        → IfErr (after_in (lines ++ more) rest job)
        (λ f. end_line_of rest.line (drop rest.at lines) ≤ f.line)
        → after_in lines rest job ≡ Err fault
        → fault ≡ Syntax on end_line_of rest.line (drop rest.at lines) }
{}
