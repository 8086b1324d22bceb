use crate::{LocksEnd, run_locks};
use script_text::{MemSink, TextOut, read_locks};
use std::alloc::Global;
use std::test::Fail;

// How the run of a lock script ended, and what it wrote. The write of that number fails.
fn run(alloc: Global, script: &str, failing: u32) -> Result<(Result<(), LocksEnd>, MemSink), Fail> {
    let script = read_locks(alloc, script.as_bytes()).ok().ok_or("a script")?;
    let mut sink = MemSink::new(alloc, 1000, Vec::from_slice(alloc, &[failing])?)?;
    let mut out = TextOut::new(alloc)?;
    let end = run_locks(alloc, script.lines(), &mut out, &mut sink);
    Ok((end, sink))
}

const SENDER: &str =
    "ask 0 message EX\ngrant message\nconvert 0 message CW\nask 1 message CR\ngrant message\nup 1 message PR\nrelease 1 message\nrelease 1 message\nend\n";

// The script, the write that fails, how the run ends, and the text.
const RUNS: &[(&str, u32, Result<(), LocksEnd>, &str)] = &[
    (
        "ask 0 ack CR\ngrant ack\nask 1 ack CR\ngrant ack\nask 2 ack EX\ncalls 0 ack\ncalls 1 ack\ngrant ack\nrelease 0 ack\ngrant ack\nrelease 1 ack\ngrant ack\nend\n",
        99,
        Ok(()),
        "asked\ngranted 0 CR\nasked\ngranted 1 CR\nasked\ncalls 2\ncalls 2\nrefused not-grantable 0 CR\nreleased\nrefused not-grantable 1 CR\nreleased\ngranted 2 EX\n",
    ),
    (
        SENDER,
        99,
        Ok(()),
        "asked\ngranted 0 EX\nconverted\nasked\ngranted 1 CR\nrefused blocked 0 CW\nreleased\nrefused not-held\n",
    ),
    // Each refusal, and the replies that the others lack.
    (
        "now 0 token PR\nask 0 token PR\nrelease 1 token\nnow 1 token EX\nconvert 0 token EX\nconvert 0 token NL\ngrant ack\nnow 2 token CR\ngrant token\ncalls 2 token\ncalls 0 token\ndie 2\ngrant token\nup 0 token CW\nend\n",
        99,
        Ok(()),
        "granted 0 PR\nrefused not-free\nrefused not-held\nrefused blocked 0 PR\nasked\nrefused already-asked\nrefused nothing-asked\ngranted 2 CR\nrefused not-grantable 2 CR\ncalls 0\ncalls -\ndone\ngranted 0 EX\nconverted\n",
    ),
    ("end\n", 99, Ok(()), ""),
    // All is written in one call.
    (SENDER, 0, Err(LocksEnd::Write), ""),
];

#[test]
fn runs(rt: HostRuntime) -> Result<(), Fail> {
    for (script, failing, wanted, text) in RUNS {
        let (end, sink) = run(rt.alloc(), script, *failing)?;
        assert_eq!(rt; end, *wanted);
        assert_eq!(rt; sink.bytes(), text.as_bytes());
    }
    Ok(())
}
