//! The main theorems, each the contract of a function that does nothing.

ghost use Rattle.std.specs.Prelude.{[], ℕ};
ghost use Rattle.qss_guarantees.specs.Prelude.{RunOptions, Side, RunAnswers, Run2Answers, PrintAnswers, GenerationAnswers, CertifyAnswers, UpgradeAnswers, ProposeAnswers, CheckAnswers, CompareAnswers};
ghost use Rattle.qss_guarantees.specs.AnswerLaws.{AnswersAreUnique, AnswersExist, BytesDetermineAnswers, DevsAnswersAsRun, AnswersHaveProperties, ByteAnswersAreUnique, EachAnswer, EachForSource, EachForText, EachForTraces};
ghost use Rattle.qss_guarantees.specs.Theorems.{RunPrintsRowsOfMachine, Run2PrintsSecondOrderRows, PrintPrintsCanonicalText, GenPrintsSummary, CertifyIsSound, CertifyIsComplete, ProposeIsSound, ProposeIsComplete, CheckAcceptsRuns, CompareIsSound, CompareIsComplete, UpgradeKeepsCertificate, UpgradeIsComplete};

// ---- For the bytes of the files that a command reads.

/// Each answer of the specification has the properties of its command. The next thirteen theorems
/// state these properties one by one.
pub fn answers_have_properties()
    ensures { AnswersHaveProperties }
{}

/// `run` has status 0 or 6 only if the source compiles to a machine. If the source compiles, the
/// answer is the header and the rows of the machine's run. The theorem covers `devs` too, with
/// `plain_options`.
pub fn run_prints_rows_of_machine()
    ensures { (options : RunOptions)
        → EachForSource (RunAnswers options) (RunPrintsRowsOfMachine options) }
{}

/// `run2` prints the header and the rows of the second-order run of a machine without clauses, and
/// rejects a machine with clauses.
pub fn run2_prints_second_order_rows()
    ensures { EachForSource Run2Answers Run2PrintsSecondOrderRows }
{}

/// `print` prints the canonical text of the model as which the source parses.
pub fn print_prints_canonical_text()
    ensures { EachForSource PrintAnswers PrintPrintsCanonicalText }
{}

/// `gen` has status 0 or 6 only if the generated source compiles to a machine. If the source
/// compiles, the answer is the summary of the machine's run.
pub fn gen_prints_summary()
    ensures { (seed cells : ℕ)
        → EachAnswer (GenerationAnswers seed cells []) (GenPrintsSummary seed cells) }
{}

/// If `certify` has status 0, the conditions of the certificate hold, and all their sums are in
/// range. Any two covered runs are within the printed bounds E of each other. Each covered run is
/// within E of the solutions of the machine's differential equation, and within E/2 of the solution
/// from the run's own start. The certificate covers the machine's own runs, under every rule, from
/// the certificate's starts.
pub fn certify_is_sound()
    ensures { (share : ℕ) → EachForText (CertifyAnswers share) (CertifyIsSound share) }
{}

/// If the conditions of a certificate hold and all their sums are in range, `certify` has status 0
/// and prints the bounds.
pub fn certify_is_complete()
    ensures { (share : ℕ) → EachForText (CertifyAnswers share) (CertifyIsComplete share) }
{}

/// If `propose` has status 0, the text parses as a certificate from the machine's start, and the
/// bounds of this certificate hold.
pub fn propose_is_sound()
    ensures { EachForSource ProposeAnswers ProposeIsSound }
{}

/// If the check accepts the candidate of a machine, `propose` has status 0 and prints the text of
/// the candidate.
pub fn propose_is_complete()
    ensures { EachForSource ProposeAnswers ProposeIsComplete }
{}

/// `check` has status 0 if and only if the text parses as the trace of a legitimate run of the
/// machine, from the machine's start and with the quanta that the trace states. Then it prints the
/// summary of the trace.
pub fn check_accepts_runs()
    ensures { EachForText CheckAnswers CheckAcceptsRuns }
{}

/// If `compare` has status 0, the two runs that the command names are covered runs, and the
/// greatest V of their difference is printed and at most the bound.
pub fn compare_is_sound()
    ensures { (one two : Side)
        → EachForTraces (CompareAnswers one two) (CompareIsSound one two) }
{}

/// If a certificate is accepted and has the machine's start, the two runs that `compare` names have
/// traces, and all sums of the comparison are in range, then `compare` has status 0 and prints the
/// result of the comparison.
pub fn compare_is_complete()
    ensures { (one two : Side)
        → EachForTraces (CompareAnswers one two) (CompareIsComplete one two) }
{}

/// If `upgrade` has status 0, the text parses as the certificate that was read.
pub fn upgrade_keeps_certificate()
    ensures { EachForText UpgradeAnswers UpgradeKeepsCertificate }
{}

/// If the text parses as a certificate, `upgrade` has status 0 and prints the certificate in form 3.
pub fn upgrade_is_complete()
    ensures { EachForText UpgradeAnswers UpgradeIsComplete }
{}

/// The bytes that a command reads determine at most one answer, and the files that it reads.
pub fn bytes_determine_answers()
    ensures { BytesDetermineAnswers }
{}

/// The bytes of the files determine at most one answer of each call of `qss_top` that takes these
/// bytes: `answer_source`, `answer_print`, `answer_certificate`, `answer_upgrade`, `answer_trace` and
/// `answer_comparison`.
pub fn byte_answers_are_unique()
    ensures { ByteAnswersAreUnique }
{}

/// `devs` has the answers of `run` without options, for all contents.
pub fn devs_answers_as_run()
    ensures { DevsAnswersAsRun }
{}

// ---- For arguments and files, whose contents may be known.

/// Arguments and files determine at most one result and the files that are read.
pub fn answers_are_unique()
    ensures { AnswersAreUnique }
{}

/// Arguments and known files determine a result, possibly that a file is missing.
pub fn answers_exist()
    ensures { AnswersExist }
{}
