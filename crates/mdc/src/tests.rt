use crate::array::open_world;
use crate::play::play;
use crate::status::Status;
use leg_shelf::{FolderShelf, MemShelf, Shelf};
use leg_store::Left;
use script_text::{MemSink, MemSource, ScriptEnd, read_script};
use std::alloc::{AllocError, Global};
use std::fs;
use std::test::Fail;
use std::thread::Threads;

// The status of a call with these words, parted by spaces, over this shelf, and what it wrote. The calls
// of these numbers fail, which count from 0.
fn called<R: Threads + Sync, H: Shelf>(
    rt: &R,
    alloc: Global,
    shelf: &mut H,
    words: &str,
    script: &[u8],
    read: u32,
    write: u32,
) -> Result<(Status, MemSink), AllocError> {
    let mut owned = Vec::new(alloc);
    for word in words.split_terminator(' ') {
        owned.push(String::from_str(alloc, word)?)?;
    }
    let script = Vec::from_slice(alloc, script)?;
    let mut source = MemSource::new(script, Vec::from_slice(alloc, &[read])?);
    let mut sink = MemSink::new(alloc, 2_000_000, Vec::from_slice(alloc, &[write])?)?;
    let status = play(rt, alloc, owned.as_slice(), shelf, &mut source, &mut sink);
    Ok((status, sink))
}

// The same over an empty shelf.
fn played<R: Threads + Sync>(
    rt: &R,
    alloc: Global,
    words: &str,
    script: &[u8],
    read: u32,
    write: u32,
) -> Result<(Status, MemSink), AllocError> {
    let mut shelf = MemShelf::new(alloc, Vec::new(alloc));
    called(rt, alloc, &mut shelf, words, script, read, write)
}

// No call has this number.
const NEVER: u32 = 99_999_999;

const FIRST: &str = "warm 2 16 4 1\nw 0 5 6869\nout 0 0 0\nout 0 0 1\nok 0 0\nr 0 5\nin 0 0\nend\n";

// A whole round tells the others that a leg failed.
const ROUND: &str =
    "array 2 16 4 3\ncut 0 1\nw 0 5 01\nbit 0 0 0\nbit 0 0 1\ntoken 0\ngrant token\nmessage 0\ngrant message\noffer 0 meta\npublish 0\nsb 0 0\npublish 0\ngrant ack\ntake 1\nprocessed 1\ntake 2\nprocessed 2\ngrant ack\ngrant message\nfinish 0\ngrant message\ngrant message\nresume 1\nresume 2\nview 2\nout 0 0 0\nok 0 0\ncheck\nend\n";

const ROUND_SAYS: &str =
    "done\nwrite 0\ndone\nlost 1\ndone\ngranted 0 EX\ndone\ngranted 0 EX\nevents 2\nrefused not-written 0\ndone\ndone\nrefused not-grantable 1 CR\nmessage metadata-updated 0\ndone\nmessage metadata-updated 0\ndone\ngranted 0 EX\nrefused not-grantable 0 CW\ndone\ngranted 1 PR\ngranted 2 PR\nwhole\nwhole\nview 2 up WF lost - unacked -\ndone\ndone\nlegal 23\n";

// A dead node's slot is recovered, and each kind of query is asked.
const RECOVERY: &str =
    "array 2 16 4 2\nw 0 5 6869\nbit 0 0 0\nbit 0 0 1\nout 0 0 0\nmap 0\nslot 1 0\nview 0\nsize 1\ndie 0\nrecord\nview 0\nr 1 5\nin 1 0\nresync 1\ngrant resync\nrec 1 0\nslotin 1 0 0\nslotin 1 0 1\nslotout 1 0 0\nbit 1 0 0\nbit 1 0 1\nslotout 1 0 0\nslotout 1 0 1\npass 1 own\nmap 1\nslot 0 0\nslot 2 0\nmap 8\ncheck\nend\n";

const RECOVERY_SAYS: &str =
    "write 0\ndone\ndone\ndone\nmap 0 set 1 need -\nslot 1 0 set 1\nview 0 up WW lost - unacked -\nsize 1 16 sure 16\ndone\nrecord live 1 pending 0 drawn 1 completed 1\nview 0 out\nread 0\nvalue 0 6869\ndone\ngranted 1 EX\ndone\ndone\ndone\nrefused bit-missing 0\ndone\ndone\ndone\ndone\ndone\nmap 1 set 1 need 1\nslot 0 0 set -\nrefused no-leg 2\nrefused no-node 8\nlegal 17\n";

const LOCKS: &str =
    "ask 0 message EX\ngrant message\nconvert 0 message CW\nrelease 1 message\nend\nfrob\n";

const WIRE: &str =
    "nodes 2\nask 0 token CR\ndeliver 0 0\nserve token\ndeliver 0 0\nconvert 0 token EX\ndeliver 0 0\nserve token\nholds 0 token\ndeliver 0 0\nholds 0 token\nend\nfrob\n";

const WIRE_SAYS: &str =
    "asked\ntook ask\ngranted 0 CR\ntook granted\nasked\ntook convert\ngranted 0 EX\nholds 0 CR\ntook granted\nholds 0 EX\n";

// Four nodes through deaths, a cut leg and its replacement.
const STORM: &str = "array 3 1024 128 4\nstorm 7 20000\nauto 40000\ncheck\ncompare\nview 0\nend\n";

const STORM_SAYS: &str =
    "storm turns 20000 events 18283 refused 1717 writes 2171 ended 2163 reads 1869 deaths 2 recovered 0\nauto 9777\nlegal 28060\nlegs equal\nview 0 up WWW lost - unacked -\n";

// A write that stands on one leg, a read of `compare` that fails, and the end of both.
const COMPARED: &str =
    "array 2 8 4 1\nfault 1 11 old\nw 0 2 01\nbit 0 0 0\nbit 0 0 1\nout 0 0 0\ncompare\nout 0 0 1\ncompare\ncompare\nend\n";

const COMPARED_SAYS: &str =
    "write 0\ndone\ndone\ndone\nlegs differ 2\ndone\nlegs unread 1\nlegs equal\n";

const DEMO: &str = "create demo 2 16 4 00000000000000000000000000000000";

// A node comes in, and the images outlive it.
const COMES_IN: &str =
    "images\njoin 0\ngrant token\nload 0 0\nload 0 1\nup 0\nmessage 0\ngrant message\noffer 0 meta\nsb 0 0\nsb 0 1\npublish 0\ngrant ack\nfinish 0\nw 0 5 6869\nbit 0 0 0\nbit 0 0 1\nout 0 0 0\nout 0 0 1\nok 0 0\nr 0 5\nin 0 0\ncheck\ncompare\nend\n";

const COMES_IN_SAYS: &str =
    "done\ngranted 0 EX\nsuper 1\nsuper 1\ndone\ndone\ngranted 0 EX\nevents 2\ndone\ndone\ndone\ngranted 0 EX\ndone\nwrite 0\ndone\ndone\ndone\ndone\ndone\nread 0\nvalue 0 6869\nlegal 21\nlegs equal\n";

// Calls over one shelf, one after another: the words, the script, the status, and how the text begins.
const IMAGES: &[(&str, &str, u8, &str)] = &[
    (DEMO, "", 0, "created demo.0\ncreated demo.1\n"),
    ("show demo", "", 0, "leg 0 events 1 roles WW sum 1899b4ef\n"),
    ("play demo", "images\ncheck\nend\n", 0, "legal 0\n"),
    ("play demo", COMES_IN, 0, COMES_IN_SAYS),
    ("show demo", "", 0, "leg 0 events 2 roles WW sum "),
    (
        "play demo",
        "array 2 16 4 1\nend\n",
        3,
        "script 1 no-array\n",
    ),
    (
        "upgrade demo demo2",
        "",
        0,
        "upgraded demo2.0\nupgraded demo2.1\n",
    ),
    ("upgrade demo2 demo3", "", 4, "image 0 upgraded\n"),
    ("play demo2", "images\ncompare\nend\n", 0, "legs equal\n"),
    ("show none", "", 4, "image 0 missing\n"),
    (
        "create de-mo 2 16 4 00000000000000000000000000000000",
        "",
        2,
        "usage\n",
    ),
];

// The words, the script, the read and the write that fail, the number of the status and the text.
const CALLS: &[(&str, &str, u32, u32, u8, &str)] = &[
    (
        "play",
        FIRST,
        NEVER,
        NEVER,
        0,
        "write 0\ndone\ndone\ndone\nread 0\nvalue 0 6869\n",
    ),
    ("play", ROUND, NEVER, NEVER, 0, ROUND_SAYS),
    ("play", RECOVERY, NEVER, NEVER, 0, RECOVERY_SAYS),
    // A transfer fails that a line names, and the leg is lost.
    (
        "play",
        "warm 2 16 4 1\nfault 1 0 new\nfault 0 1 old\nw 0 5 01\nout 0 0 0\nout 0 0 1\nview 0\nr 0 5\nin 0 0\nin 0 0\nend\n",
        NEVER,
        NEVER,
        0,
        "write 0\ndone\nlost 1\nview 0 up WW lost 1 unacked 1\nread 0\nio 0\nrefused no-read 0\n",
    ),
    // What stands after the line `end` isn't judged.
    ("play", "warm 2 16 4 1\nend\nfrob\n", NEVER, NEVER, 0, ""),
    (
        "locks",
        LOCKS,
        NEVER,
        NEVER,
        0,
        "asked\ngranted 0 EX\nconverted\nrefused not-held\n",
    ),
    ("wire", WIRE, NEVER, NEVER, 0, WIRE_SAYS),
    // Events that the program chooses, and a comparison of the legs.
    ("play", STORM, NEVER, NEVER, 0, STORM_SAYS),
    ("play", COMPARED, NEVER, NEVER, 0, COMPARED_SAYS),
    ("frob", FIRST, NEVER, NEVER, 2, "usage\n"),
    ("", FIRST, NEVER, NEVER, 2, "usage\n"),
    ("play", "", NEVER, NEVER, 3, "script 1 no-array\n"),
    ("locks", "", NEVER, NEVER, 3, "script 1 no-end\n"),
    ("wire", "", NEVER, NEVER, 3, "script 1 no-array\n"),
    ("play", "frob\n", 1, NEVER, 5, "read-fault\n"),
    ("locks", LOCKS, 1, NEVER, 5, "read-fault\n"),
    ("wire", WIRE, 1, NEVER, 5, "read-fault\n"),
    ("play", FIRST, NEVER, 0, 6, ""),
    ("locks", LOCKS, NEVER, 0, 6, ""),
    ("wire", WIRE, NEVER, 0, 6, ""),
    ("wire", "nodes 0\n", NEVER, 0, 6, ""),
    // The last line of a call that comes to nothing is a write too.
    ("frob", FIRST, NEVER, 0, 6, ""),
    ("play", "frob\n", NEVER, 0, 6, ""),
    ("play", FIRST, 1, 0, 6, ""),
];

#[test]
fn calls(rt: HostRuntime) -> Result<(), AllocError> {
    for (words, script, read, write, code, text) in CALLS {
        let (status, sink) = played(&rt, rt.alloc(), words, script.as_bytes(), *read, *write)?;
        assert_eq!(rt; status.code(), *code, "at {words} {script:?}");
        assert_eq!(rt; sink.bytes(), text.as_bytes(), "at {words} {script:?}");
    }
    Ok(())
}

// A trace with as many entries as it may have: refusals go on, the next accepted event ends the
// call.
#[test]
fn the_trace_is_full(rt: HostRuntime) -> Result<(), AllocError> {
    let mut script = String::from_str(rt.alloc(), "warm 2 16 4 1\n")?;
    for k in 0..32_768_u32 {
        script.push_str("r 0 5\nin 0 ")?;
        script.push_str(k.to_string(rt.alloc())?.as_str())?;
        script.push_str("\n")?;
    }
    script.push_str("in 0 0\nr 0 5\nr 0 5\nend\n")?;
    let (status, sink) = played(
        &rt,
        rt.alloc(),
        "play",
        script.as_str().as_bytes(),
        NEVER,
        NEVER,
    )?;
    assert_eq!(rt; status.code(), 9);
    assert!(rt;
        sink.bytes()
            .ends_with(b"value 0 -\nrefused no-read 0\ntrace-full\n")
    );
    Ok(())
}

#[test]
fn a_world_takes_room(rt: HostRuntime) -> Result<(), AllocError> {
    let script = match read_script(rt.alloc(), FIRST.as_bytes()) {
        Ok(script) => script,
        Err(ScriptEnd::Memory) => return Err(AllocError),
        Err(ScriptEnd::Fault(_)) => return Ok(()),
    };
    let mut world = open_world(rt.alloc(), &script)?;
    world.reserve(10)?;
    assert!(rt; world.spare() >= 10);
    Ok(())
}

// Makes these calls over one shelf, and gives the first that ends otherwise.
fn first_otherwise<R: Threads + Sync, H: Shelf>(
    rt: &R,
    alloc: Global,
    shelf: &mut H,
) -> Result<Option<&'static str>, AllocError> {
    for (words, script, code, text) in IMAGES {
        let (status, sink) = called(rt, alloc, shelf, words, script.as_bytes(), NEVER, NEVER)?;
        if status.code() != *code || !sink.bytes().starts_with(text.as_bytes()) {
            return Ok(Some(*words));
        }
    }
    Ok(None)
}

// Over a shelf in memory and over the files of a folder, which are the same at the end.
#[test]
fn images(rt: HostRuntime) -> Result<(), Fail> {
    let alloc = rt.alloc();
    let mut shelf = MemShelf::new(alloc, Vec::new(alloc));
    assert_eq!(rt; first_otherwise(&rt, alloc, &mut shelf)?, None);
    let mut folder = FolderShelf::new(&rt);
    assert_eq!(rt; first_otherwise(&rt, alloc, &mut folder)?, None);
    for name in ["demo.0", "demo.1", "demo2.0", "demo2.1"] {
        let held = fs::read(&rt, name)?;
        fs::remove_file(&rt, name)?;
        let wanted = shelf.file(name).ok_or("no file")?;
        assert!(rt; held.as_slice() == wanted.as_slice(), "{name}");
    }
    Ok(())
}

// A shelf with the images that `create demo` makes, some of whose calls fail.
fn with_images<R: Threads + Sync>(
    rt: &R,
    alloc: Global,
    failing: Vec<u32>,
) -> Result<MemShelf, AllocError> {
    let mut made = MemShelf::new(alloc, Vec::new(alloc));
    called(rt, alloc, &mut made, DEMO, b"", NEVER, NEVER)?;
    let mut shelf = MemShelf::new(alloc, failing);
    for name in ["demo.0", "demo.1"] {
        if let Some(bytes) = made.file(name) {
            shelf.put(name, Vec::from_slice(alloc, bytes.as_slice())?)?;
        }
    }
    Ok(shelf)
}

// The call that fails, counted from 0, the status, and how the text ends. Of each leg's file two calls
// open it, and then each is given back.
const SHELF_FAILS: &[(u32, u8, &str)] = &[
    (0, 7, "shelf demo.0\n"),
    (1, 7, "shelf demo.0\n"),
    (2, 7, "shelf demo.1\n"),
    (3, 7, "shelf demo.1\n"),
    (4, 7, "legs equal\nshelf demo.0\n"),
    (5, 7, "legs equal\nshelf demo.1\n"),
    (6, 0, "legs equal\n"),
];

#[test]
fn a_shelf_fails_at_each_call(rt: HostRuntime) -> Result<(), AllocError> {
    for (call, code, text) in SHELF_FAILS {
        let mut shelf = with_images(&rt, rt.alloc(), Vec::from_slice(rt.alloc(), &[*call])?)?;
        let (status, sink) = called(
            &rt,
            rt.alloc(),
            &mut shelf,
            "play demo",
            COMES_IN.as_bytes(),
            NEVER,
            NEVER,
        )?;
        assert_eq!(rt; status.code(), *code, "at {call}");
        assert!(rt; sink.bytes().ends_with(text.as_bytes()), "at {call}");
    }
    Ok(())
}

// Opening makes so many transfers of leg 1: it reads its superblock, 64 pages and 16 data sectors.
const OPENING: u32 = 81;

// One of leg 1 fails. After the opening a failed transfer is an outcome.
#[test]
fn a_leg_fails_at_each_transfer(rt: HostRuntime) -> Result<(), AllocError> {
    let script = "images\njoin 0\ngrant token\nload 0 0\nload 0 1\nup 0\nend\n";
    for transfer in 0..=OPENING {
        let (code, text) = if transfer < OPENING {
            (7, "shelf demo.1\n")
        } else {
            (0, "super 1\nunread 1\ndone\n")
        };
        let mut shelf = with_images(&rt, rt.alloc(), Vec::new(rt.alloc()))?;
        shelf.fail_leg(
            "demo.1",
            Vec::from_slice(rt.alloc(), &[(transfer, Left::Old)])?,
        )?;
        let (status, sink) = called(
            &rt,
            rt.alloc(),
            &mut shelf,
            "play demo",
            script.as_bytes(),
            NEVER,
            NEVER,
        )?;
        assert_eq!(rt; status.code(), code, "at {transfer}");
        assert!(rt; sink.bytes().ends_with(text.as_bytes()), "at {transfer}");
    }
    Ok(())
}

// The shelf fails at a call on the second leg's file, and nothing else is printed.
#[test]
fn a_shelf_fails(rt: HostRuntime) -> Result<(), AllocError> {
    let mut shelf = MemShelf::new(rt.alloc(), Vec::from_slice(rt.alloc(), &[1])?);
    let (status, sink) = called(&rt, rt.alloc(), &mut shelf, DEMO, b"", NEVER, NEVER)?;
    assert_eq!(rt; status.code(), 7);
    assert_eq!(rt; sink.bytes(), "shelf demo.1\n".as_bytes());
    Ok(())
}
