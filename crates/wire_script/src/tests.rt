use crate::{RunEnd, run_wire};
use script_text::{MemSink, TextOut, read_wire};
use std::alloc::Global;
use std::test::Fail;

// How the run of a wire script ended, and what it wrote. The write of that number fails.
fn run(alloc: Global, script: &str, failing: u32) -> Result<(Result<(), RunEnd>, MemSink), Fail> {
    let script = read_wire(alloc, script.as_bytes()).ok().ok_or("a script")?;
    let mut sink = MemSink::new(alloc, 100_000, Vec::from_slice(alloc, &[failing])?)?;
    let mut out = TextOut::new(alloc)?;
    let end = run_wire(alloc, script.nodes(), script.lines(), &mut out, &mut sink);
    Ok((end, sink))
}

// The script, the write that fails, how the run ends, and the text.
const RUNS: &[(&str, u32, Result<(), RunEnd>, &str)] = &[
    (
        "nodes 3\nask 1 ack CR\ndeliver 1 0\nserve ack\ndeliver 0 1\nholds 1 ack\nask 2 ack EX\ndeliver 2 0\nserve ack\ndeliver 0 1\nrelease 1 ack\ndeliver 1 0\nserve ack\ndeliver 0 2\nend\n",
        99,
        Ok(()),
        "asked\ntook ask\ngranted 1 CR\ntook granted\nholds 1 CR\nasked\ntook ask\nrefused not-grantable 1 CR\ntook called\nreleased\ntook release\ngranted 2 EX\ntook granted\n",
    ),
    (
        "nodes 3\nask 1 ack CR\ndeliver 1 0\nserve ack\ndeliver 0 1\nask 2 ack EX\ndie 0\nserve ack\ndeliver 1 1\nserve ack\ndeliver 2 1\nserve ack\nrelease 1 ack\ndeliver 1 1\ndeliver 1 1\nserve ack\ndeliver 1 2\nholds 2 ack\ndeliver 2 1\nend\n",
        99,
        Ok(()),
        "asked\ntook ask\ngranted 1 CR\ntook granted\nasked\ndone\nrefused rebuilding 1\ntook report\nrefused rebuilding 2\ntook report\nrefused not-grantable 1 CR\nreleased\ntook called\ntook release\ngranted 2 EX\ntook granted\nholds 2 EX\nrefused link-empty 2 1\n",
    ),
    (
        "nodes 2\nask 0 token CR\ndeliver 0 0\nserve token\ndeliver 0 0\nconvert 0 token EX\ndeliver 0 0\nserve token\nholds 0 token\ndeliver 0 0\nholds 0 token\nend\n",
        99,
        Ok(()),
        "asked\ntook ask\ngranted 0 CR\ntook granted\nasked\ntook convert\ngranted 0 EX\nholds 0 CR\ntook granted\nholds 0 EX\n",
    ),
    // Every refusal, and the replies that the others lack.
    (
        "nodes 3\nask 3 ack CR\nask 0 ack CR\nask 0 ack CR\nrelease 0 ack\nconvert 0 ack EX\ndeliver 0 1\ndeliver 0 2\nserve ack\ndeliver 0 0\nserve ack\nrelease 1 ack\ndeliver 0 0\nconvert 0 ack CR\nconvert 0 ack PR\nconvert 0 ack PW\nrelease 0 ack\ndeliver 0 0\ndeliver 0 0\nserve ack\ndeliver 0 0\nask 1 ack EX\ndeliver 1 0\nserve ack\ndeliver 3 0\ndeliver 0 255\nholds 7 ack\ndie 0\nask 0 ack CR\nholds 0 ack\ndeliver 0 1\ndeliver 1 0\nserve ack\ndeliver 1 1\nserve ack\ndeliver 2 1\nserve ack\ndeliver 1 1\nconvert 1 ack NL\ndeliver 1 1\nholds 1 ack\ndie 2\ndie 1\ndie 1\nserve ack\nend\n",
        99,
        Ok(()),
        "refused no-node 3\nasked\nrefused not-free\nrefused waiting\nrefused not-held\nrefused link-empty 0 1\nrefused link-empty 0 2\nrefused nothing-asked\ntook ask\ngranted 0 CR\nrefused not-held\ntook granted\nconverted\nasked\nrefused already-asked\nrefused waiting\ntook convert\ntook convert\ngranted 0 PR\ntook granted\nasked\ntook ask\nrefused not-grantable 0 PR\nrefused no-node 3\nrefused no-node 255\nholds 7 -\ndone\nrefused fenced 0\nholds 0 -\nrefused fenced 0\nrefused fenced 0\nrefused rebuilding 1\ntook report\nrefused rebuilding 2\ntook report\ngranted 1 EX\ntook granted\nconverted\ntook convert\nholds 1 NL\ndone\ndone\nrefused fenced 1\nrefused not-up 1\n",
    ),
    // Three masters die one after another, each with a grant on its way.
    (
        "nodes 5\nask 4 bitmap000 PR\ndeliver 4 0\nserve bitmap000\ndeliver 0 4\nask 3 bitmap000 CR\ndeliver 3 0\nserve bitmap000\ndeliver 0 3\nconvert 3 bitmap000 PR\ndeliver 3 0\nserve bitmap000\ndie 0\nholds 3 bitmap000\ndeliver 1 1\ndeliver 2 1\ndeliver 3 1\ndeliver 4 1\nserve bitmap000\ndie 1\ndeliver 2 2\ndeliver 3 2\ndeliver 4 2\nserve bitmap000\nask 2 bitmap000 EX\ndeliver 2 2\ndie 2\ndeliver 3 3\ndeliver 4 3\nserve bitmap000\ndeliver 3 3\nholds 3 bitmap000\nholds 4 bitmap000\nconvert 4 bitmap000 EX\ndeliver 4 3\nserve bitmap000\ndeliver 3 3\nrelease 3 bitmap000\ndeliver 3 3\nserve bitmap000\ndeliver 3 4\nholds 4 bitmap000\nend\n",
        99,
        Ok(()),
        "asked\ntook ask\ngranted 4 PR\ntook granted\nasked\ntook ask\ngranted 3 CR\ntook granted\nasked\ntook convert\ngranted 3 PR\ndone\nholds 3 CR\ntook report\ntook report\ntook report\ntook report\ngranted 3 PR\ndone\ntook report\ntook report\ntook report\ngranted 3 PR\nasked\ntook ask\ndone\ntook report\ntook report\ngranted 3 PR\ntook granted\nholds 3 PR\nholds 4 PR\nasked\ntook convert\nrefused not-grantable 3 PR\ntook called\nreleased\ntook release\ngranted 4 EX\ntook granted\nholds 4 EX\n",
    ),
    ("nodes 1\nend\n", 99, Ok(()), ""),
    // All is written in one call.
    ("nodes 1\nserve ack\nend\n", 0, Err(RunEnd::Write), ""),
];

#[test]
fn runs(rt: HostRuntime) -> Result<(), Fail> {
    for (script, failing, wanted, text) in RUNS {
        let (end, sink) = run(rt.alloc(), script, *failing)?;
        assert_eq!(rt; end, *wanted, "at {script}");
        assert_eq!(rt; sink.bytes(), text.as_bytes(), "at {script}");
    }
    Ok(())
}

const RESOURCES: &[&str] = &[
    "bitmap000",
    "bitmap001",
    "bitmap002",
    "bitmap003",
    "bitmap004",
    "bitmap005",
    "bitmap006",
    "bitmap007",
    "bitmap008",
    "bitmap009",
    "bitmap010",
    "bitmap011",
    "bitmap012",
    "bitmap013",
    "bitmap014",
    "bitmap015",
    "token",
    "message",
    "ack",
    "no-new-dev",
    "resync",
];

// Each of sixteen nodes gets CR on each of the resources, of which all nodes are masters.
#[test]
fn a_long_list(rt: HostRuntime) -> Result<(), Fail> {
    let mut script = String::from_str(rt.alloc(), "nodes 16\n")?;
    let mut text = String::new(rt.alloc());
    for (number, res) in RESOURCES.iter().enumerate() {
        let master = number % 16;
        for n in 0..16_u8 {
            let lines = format!(in rt.alloc();
                "ask {n} {res} CR\ndeliver {n} {master}\nserve {res}\ndeliver {master} {n}\nholds {n} {res}\n"
            )?;
            script.push_str(lines.as_str())?;
            let replies = format!(in rt.alloc();
                "asked\ntook ask\ngranted {n} CR\ntook granted\nholds {n} CR\n"
            )?;
            text.push_str(replies.as_str())?;
        }
    }
    script.push_str("end\n")?;
    let (end, sink) = run(rt.alloc(), script.as_str(), 99)?;
    assert_eq!(rt; end, Ok(()));
    assert_eq!(rt; sink.bytes(), text.as_str().as_bytes());
    Ok(())
}
