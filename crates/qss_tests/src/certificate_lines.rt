//! Tests of lines for causes and verdicts that no call of the program prints.

use cert_check::{TextErr, Verdict};
use qss_answers::{cause_line, verdict_line};
use std::test::Fail;

#[test]
fn what_no_call_shows_has_its_line(rt: HostRuntime) -> Result<(), Fail> {
    let alloc = rt.alloc();
    let rejected = Verdict::Rejected {
        number: 11,
        place: 1,
        left: 165504,
        right: -165888,
    };
    let verdicts: [(Verdict, &str); 2] = [
        (Verdict::Accepted, ""),
        (
            rejected,
            "rejected: inequality 11 place 1 left 165504 right -165888\n",
        ),
    ];
    for (verdict, wanted) in verdicts {
        let line = verdict_line(alloc, verdict)?;
        assert_eq!(rt; line.as_slice(), wanted.as_bytes());
    }
    let memory = cause_line(alloc, "certificate", TextErr::Memory)?;
    assert_eq!(rt; memory.as_slice(), b"".as_slice());
    Ok(())
}
