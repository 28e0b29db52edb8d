//! Worksheets and their texts. Each law is the contract of a function that does nothing.

ghost use Rattle.std.specs.Prelude.{◌≡◌, ◌↔◌, ℕ, ◌+◌, List, ◌++◌, length, Ok, Err, Some, Contains};
ghost use Rattle.text_scan.specs.declared.Rest.{Rest};
ghost use Rattle.operation_spec.specs.declared.operation.Operation.{Operation};
ghost use Rattle.operation_spec.specs.Splits.{IsSplit};
ghost use Rattle.operation_spec.specs.ValidOperations.{HasNames, IsValid};
ghost use Rattle.equation.specs.declared.job.Job.{Job};
ghost use Rattle.equation.specs.Jobs.{IsJob};
ghost use Rattle.invariant_family.specs.declared.variant.Variant.{Variant};
ghost use Rattle.invariant_family.specs.Families.{family_of};
ghost use Rattle.invariant_family.specs.Splits.{directions_of};
ghost use Rattle.job_text.specs.declared.stop.Stop.TheVariants as stops;
ghost use Rattle.job_text.specs.JobLines.{job_lines};
ghost use Rattle.job_text.specs.JobTexts.{job_text};
ghost use Rattle.job_text.specs.SpelledJobs.{IsWritable, Spells, job_in};
ghost use Rattle.worksheet.specs.declared.sheet.Worksheet.{Worksheet};
ghost use Rattle.worksheet.specs.declared.verdict.Shown.{Shown};
ghost use Rattle.worksheet.specs.declared.verdict.Verdict.TheVariants.{Right, Wrong};
ghost use Rattle.worksheet.specs.declared.verdict.WsPlace.{WsPlace};
ghost use Rattle.worksheet.specs.Worksheets.{Valid, worksheet_of};
ghost use Rattle.worksheet_check.specs.Places.{IsRightAt};
ghost use Rattle.worksheet_check.specs.Verdicts.{verdict_of};
ghost use Rattle.worksheet_text.specs.SheetFaults.{SheetFault};
ghost use Rattle.worksheet_text.specs.SheetReading.{operation_named, worksheet_in};
ghost use Rattle.worksheet_text.specs.SheetTexts.{worksheet_text};
ghost use Rattle.worksheet_laws.specs.ShownPlaces.{IsShownAt};
ghost use Rattle.worksheet_laws.specs.SpelledSheets.{IsPrintable, SpellsSheet};

/// A text that spells a worksheet has no fault, and is read as that worksheet, where its operation is the first with its
/// name.
pub fn spelled_worksheets_are_read()
    ensures { (bytes : List ℕ) (rest : Rest) (operations : List Operation) (op : Operation)
        (w : Worksheet) → operation_named operations op.name ≡ Some op
        → SpellsSheet bytes rest op w → worksheet_in bytes rest operations ≡ Ok w }
{}

/// What is read without a fault is spelled so, where the first operation with its name is valid and its names can stand in a
/// text.
pub fn read_worksheets_are_spelled()
    ensures { (bytes : List ℕ) (rest : Rest) (operations : List Operation) (op : Operation)
        (w : Worksheet) → operation_named operations w.operation ≡ Some op
        → IsValid op → HasNames op → worksheet_in bytes rest operations ≡ Ok w
        → SpellsSheet bytes rest op w }
{}

/// A text spells one worksheet at most.
pub fn texts_spell_one_worksheet()
    ensures sheet { (bytes : List ℕ) (rest : Rest) (op : Operation) (w other : Worksheet)
        → SpellsSheet bytes rest op w → SpellsSheet bytes rest op other → w ≡ other }
    ensures of_one_name { (bytes : List ℕ) (rest : Rest) (op p : Operation) (w other : Worksheet)
        → SpellsSheet bytes rest op w → SpellsSheet bytes rest p other → op.name ≡ p.name }
{}

/// A text that has a fault spells no worksheet of the operations.
pub fn refused_texts_spell_no_worksheet()
    ensures { (bytes : List ℕ) (rest : Rest) (operations : List Operation) (op : Operation)
        (w : Worksheet) (fault : SheetFault) → operation_named operations op.name ≡ Some op
        → worksheet_in bytes rest operations ≡ Err fault → SpellsSheet bytes rest op w → ⊥ }
{}

/// The printed text of a worksheet spells it, behind any bytes and on any line: its comments say nothing.
pub fn printed_worksheets_are_spelled()
    ensures { (front : List ℕ) (line : ℕ) (op : Operation) (w : Worksheet)
        → IsValid op → HasNames op → IsPrintable op w
        → SpellsSheet (front ++ worksheet_text op w)
        (record { at = length front; line = line }) op w }
{}

/// A valid worksheet along one of its operation's splits can be printed, in whatever order its updates stand. So what is
/// printed of it is read as itself, and is right.
pub fn valid_worksheets_are_printable()
    ensures { (op : Operation) (w : Worksheet) → IsValid op → w.operation ≡ op.name
        → IsSplit op w.split → Contains (directions_of w.split) w.dirs
        → Valid op w → IsPrintable op w }
{}

/// A made worksheet, printed behind any bytes and read from there, is the made one, for each variant of a valid operation that is
/// the first with its name; and its verdict is that it is right.
pub fn made_worksheets_are_read_and_right()
    ensures printable { (op : Operation) (v : Variant) → IsValid op → Contains (family_of op) v
        → IsPrintable op (worksheet_of op v.split v.dirs v.kept) }
    ensures read { (front : List ℕ) (line : ℕ) (operations : List Operation) (op : Operation)
        (v : Variant) → IsValid op → HasNames op → operation_named operations op.name ≡ Some op
        → Contains (family_of op) v
        → worksheet_in (front ++ worksheet_text op (worksheet_of op v.split v.dirs v.kept))
        (record { at = length front; line = line }) operations
        ≡ Ok (worksheet_of op v.split v.dirs v.kept) }
    ensures right { (op : Operation) (v : Variant) → IsValid op → Contains (family_of op) v
        → verdict_of op (worksheet_of op v.split v.dirs v.kept) ≡ Right }
{}

/// The printed text of a worksheet behind that of a valid job spells the job, and the second part of it begins where the
/// worksheet does: so both are read, one behind the other.
pub fn worksheets_stand_behind_jobs()
    ensures { (job : Job) (op : Operation) (w : Worksheet) → IsJob job → IsWritable job
        → IsValid op → HasNames op → IsPrintable op w
        → Spells (job_text job ++ worksheet_text op w) stops.Worksheet job
        (record { at = length (job_text job); line = length (job_lines job) + 1 }) }
{}

/// So is a made worksheet of one of a job's operations behind the job: the job is read as itself and the worksheet as the made
/// one, which is right.
pub fn made_worksheets_stand_behind_their_jobs()
    ensures job { (job : Job) (op : Operation) (v : Variant) → IsJob job → IsWritable job
        → operation_named job.operations op.name ≡ Some op → Contains (family_of op) v
        → job_in stops.Worksheet
        (job_text job ++ worksheet_text op (worksheet_of op v.split v.dirs v.kept))
        ≡ Ok (job, record { at = length (job_text job); line = length (job_lines job) + 1 }) }
    ensures sheet { (job : Job) (op : Operation) (v : Variant) → IsJob job → IsWritable job
        → operation_named job.operations op.name ≡ Some op → Contains (family_of op) v
        → worksheet_in (job_text job ++ worksheet_text op (worksheet_of op v.split v.dirs v.kept))
        (record { at = length (job_text job); line = length (job_lines job) + 1 }) job.operations
        ≡ Ok (worksheet_of op v.split v.dirs v.kept) }
    ensures right { (job : Job) (op : Operation) (v : Variant) → IsJob job
        → operation_named job.operations op.name ≡ Some op → Contains (family_of op) v
        → verdict_of op (worksheet_of op v.split v.dirs v.kept) ≡ Right }
{}

/// A worksheet is valid exactly where it is right at all its places.
pub fn valid_is_right_at_all_places()
    ensures { (op : Operation) (w : Worksheet)
        → Valid op w ↔ ((place : WsPlace) → IsRightAt op w place) }
{}

/// What a verdict shows of the place that it names is what the worksheet has there, and what is due there.
pub fn verdicts_show_what_is_there_and_due()
    ensures { (op : Operation) (w : Worksheet) (place : WsPlace) (found due : Shown)
        → verdict_of op w ≡ Wrong place found due → IsShownAt op w place found due }
{}
