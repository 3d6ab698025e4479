//! Tests of the results for given bytes, with expected texts computed by hand.

use mu_io::MemSink;
use qss_cli::Task;
use qss_top::{
    Outcome, RunSource, RunSources, answer_certificate, answer_comparison, answer_print,
    answer_source, answer_trace, answer_upgrade, report,
};
use std::alloc::Global;
use std::process::Abort;
use std::test::Fail;

// A model of a decay, its proposed certificate, another certificate, and a trace with refinement 2.
const DECAY: &str =
    "model decay Real x(start = 64); equation der(x) = -1*x; annotation(experiment(StopTime = 1, QSS_CoefBits = 8, QSS_TickBits = 4, QSS_LevelBits = 0, QSS_Quantum = 4)); end decay;";

const PROPOSED: &str =
    "form,3\nP,8453\np,8453\nmu,2163968\nlambda,256\nh1,1\nG1,0\nh2,1\nG2,0\nc,0\nR,34623488\nZ,64\nS,5\nsigmaR,175281408\nC,2738772\nsigmaC,701125632\nE,18\nstart1,262144\nstart2,262144\nQ,4\n";

const CERTIFICATE: &str =
    "form,1\nP,1\np,1\nmu,128\nlambda,384\nh1,1\nG1,0\nh2,1\nG2,0\nc,0\nR,4096\nZ,64\nS,5\nsigmaR,41472\nC,432\nsigmaC,165888\nE,21\n";

const HALVES: &str = "trace,1\nscale,1\nrefine,2\nQ,4\nat,262144,64\nat,253952,62\nat,246016,60\n";

#[test]
fn bytes_are_answered(rt: HostRuntime) -> Result<(), Fail> {
    let alloc = rt.alloc();
    let model = DECAY.as_bytes();
    let certificate = PROPOSED.as_bytes();
    let mut out = sink(alloc)?;
    let outcome = answer_source(alloc, Task::Propose, model, &mut out);
    assert_became(&rt, alloc, &outcome, &out, (0, PROPOSED, ""))?;
    let mut out = sink(alloc)?;
    let outcome = answer_certificate(alloc, 0, model, certificate, &mut out);
    assert_became(&rt, alloc, &outcome, &out, (0, "name,levels\nx,18\n", ""))?;
    let mut out = sink(alloc)?;
    let outcome = answer_upgrade(alloc, model, certificate, &mut out);
    assert_became(&rt, alloc, &outcome, &out, (0, PROPOSED, ""))?;
    let mut out = sink(alloc)?;
    let outcome = answer_trace(alloc, model, HALVES.as_bytes(), &mut out);
    let summary = "places,scale,refine\n3,1,2\n";
    assert_became(&rt, alloc, &outcome, &out, (0, summary, ""))?;
    let runs = RunSources {
        one: RunSource::First,
        two: RunSource::Traced(HALVES.as_bytes()),
    };
    let mut out = sink(alloc)?;
    let outcome = answer_comparison(alloc, model, CERTIFICATE.as_bytes(), runs, &mut out);
    let both = "common,place1,place2,greatest,bound\n2,1,2,65536,7247757312\n";
    assert_became(&rt, alloc, &outcome, &out, (0, both, ""))
}

// A source has at most 2^20 bytes.
#[test]
fn bytes_are_too_many(rt: HostRuntime) -> Result<(), Fail> {
    let alloc = rt.alloc();
    let model = vec![in alloc; b' '; (1 << 20) + 1]?;
    let mut out = sink(alloc)?;
    let outcome = answer_print(alloc, &model, &mut out);
    assert_became(&rt, alloc, &outcome, &out, (5, "", "refused: top 1\n"))?;
    let outcome = answer_certificate(alloc, 0, &model, &[], &mut out);
    assert_became(&rt, alloc, &outcome, &out, (5, "", "refused: top 1\n"))?;
    let outcome = answer_upgrade(alloc, &model, &[], &mut out);
    assert_became(&rt, alloc, &outcome, &out, (5, "", "refused: top 1\n"))?;
    let runs = RunSources {
        one: RunSource::First,
        two: RunSource::Second,
    };
    let outcome = answer_comparison(alloc, &model, &[], runs, &mut out);
    assert_became(&rt, alloc, &outcome, &out, (5, "", "refused: top 1\n"))?;
    let outcome = answer_trace(alloc, &model, &[], &mut out);
    assert_became(&rt, alloc, &outcome, &out, (5, "", "refused: top 1\n"))
}

// A sink with enough capacity for all texts of these tests.
fn sink(alloc: Global) -> Result<MemSink, Fail> {
    let sink = MemSink::with_room(alloc, 1000, Vec::new(alloc))?;
    Ok(sink)
}

// Asserts the status, the text on out and the line on err of an outcome.
fn assert_became(
    rt: &impl Abort,
    alloc: Global,
    outcome: &Outcome,
    out: &MemSink,
    expected: (u8, &str, &str),
) -> Result<(), Fail> {
    let mut err = sink(alloc)?;
    let status = report(alloc, outcome, &mut err);
    assert_eq!(rt; status.code(), expected.0);
    assert_eq!(rt; out.bytes(), expected.1.as_bytes());
    assert_eq!(rt; err.bytes(), expected.2.as_bytes());
    Ok(())
}
