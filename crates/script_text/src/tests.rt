use super::*;
use mdc_types::{Event, Failed, Sector};
use std::alloc::Global;
use std::io;
use std::io::{ErrorKind, Read};
use std::test::*;

// Each line of the setup, of events and of queries, and an outside vector for a value.
const WHOLE: &str =
    "\n# two legs\narray2 2 16 4 9\nroom 20\nspare 1\nfault 0 7 new\nw 0 5 6869\nout 0 0 255\nok 0 10\nr 0 5\nin 0 0\ncut 0 1\nmend 0 1\ndie 0\ngrant token\njoin 0\nload 0 1\nup 0\nleave 0\ntoken 0\nmessage 0\noffer 0 meta\noffer 0 meta spare 1\noffer 0 range 4 8\noffer 0 newdisk 1\noffer 0 remove 1\noffer 0 readd 1\noffer 0 unclean\noffer 0 grow 4294967295\nsb 0 1\npublish 0\nfinish 0\nquit 0\ntake 0\nprocessed 0\nresume 0\ndrop 0\nbit 0 0 1\nbreak 0 0\nclear 0 0\nresync 0\ngather 0\npass 0 own\npass 0 full\npass 0 again 1\nci 0\nco 0 1\nsettle 0\ndone 0\nrec 0 1\nslotin 0 0 1\nslotout 0 0 1\nrecovered 0\nlockdev 0\nauto 3\nstorm 7 9\nview 255\nmap 0\nslot 2 1\nrecord\nsize 9\ncheck\ncompare\nend\nfrob";

#[test]
fn whole_script(rt: HostRuntime) -> Result<(), Fail> {
    let script = read_script(rt.alloc(), WHOLE.as_bytes())
        .ok()
        .ok_or("a script")?;
    assert_eq!(rt; script.len(), 57);
    let Line::Event(Event::AskWrite(0, 5, written)) = script.line(0) else {
        return Err("a write".into());
    };
    let mut value = Sector::ZERO;
    value.bytes[0] = b'h';
    value.bytes[1] = b'i';
    assert_eq!(rt; written, value);
    Ok(())
}

// One fault of each kind but `long`.
const FAULTY: &[&str] = &[
    "# end\n\nimages\nend\n",
    "array 2 16 4 1\nspare 1\nroom 32\nend\n",
    "array 2 16 4 1\nend \n",
    "array 2 16 4 1\nw 0 +5 -\nend\n",
    "array 2 16 4 1\nw 0 5 0F\nend\n",
    "array 2 16 4 9\nend\n",
    "array 2 16 4 1\n#",
];

// Puts the line and the kind of the fault at the end, as `2 value,`.
fn tell<S: Drop>(told: &mut String, read: Result<S, ScriptEnd>) -> Result<(), Fail> {
    match read {
        Ok(_) => told.push_str("ok,")?,
        Err(ScriptEnd::Fault(fault)) => write!(told, "{} {},", fault.line, fault.kind.word())?,
        Err(ScriptEnd::Memory) => return Err("memory".into()),
    }
    Ok(())
}

#[test]
fn faults(rt: HostRuntime) -> Result<(), Fail> {
    let mut told = String::new(rt.alloc());
    for text in FAULTY {
        tell(&mut told, read_script(rt.alloc(), text.as_bytes()))?;
    }
    tell(&mut told, read_script(rt.alloc(), b"#\xff\n"))?;
    assert_eq!(rt;
        told.as_str(),
        "3 no-array,3 word,2 count,2 number,2 value,1 range,3 no-end,1 utf8,"
    );
    Ok(())
}

// Of scripts with other headers, and with none.
#[test]
fn other_scripts(rt: HostRuntime) -> Result<(), Fail> {
    let mut told = String::new(rt.alloc());
    let images = b"\nimages\ncheck\nw 0 5 6869\nend\n";
    tell(&mut told, read_images(rt.alloc(), images))?;
    let array = b"array 2 16 4 1\nend\n";
    tell(&mut told, read_images(rt.alloc(), array))?;
    let spare = b"images\nspare 1\nend\n";
    tell(&mut told, read_images(rt.alloc(), spare))?;
    let locks = b"ask 0 bitmap015 NL\nup 9 message PR\ncalls 0 ack\nend\n";
    tell(&mut told, read_locks(rt.alloc(), locks))?;
    let wire = b"nodes 16\nask 255 bitmap000 EX\ndeliver 4 2\nend\n";
    tell(&mut told, read_wire(rt.alloc(), wire))?;
    assert_eq!(rt; told.as_str(), "ok,1 no-array,2 word,ok,ok,");
    Ok(())
}

// The parts that three reads give, each with `|` after it, and `!` for each that fails.
fn parts<S: Source>(alloc: Global, source: &mut S) -> Result<Vec<u8>, Fail> {
    let mut parts = Vec::new(alloc);
    for _ in 0..3 {
        match read_input(alloc, source) {
            Ok(part) => {
                parts.extend_from_slice(part.as_slice())?;
                parts.push(b'|')?;
            }
            Err(_) => parts.push(b'!')?,
        }
    }
    Ok(parts)
}

// A device that fails.
#[derive(Drop)]
struct Broken;

impl Read for Broken {
    fn read(&mut self, _buf: &mut [u8]) -> io::Result<usize> {
        Err(ErrorKind::BrokenPipe.into())
    }
}

#[test]
fn sources(rt: HostRuntime) -> Result<(), Fail> {
    let mut source = StdSource::new(rt.alloc(), b"end\nend".as_slice())?;
    assert_eq!(rt;
        parts(rt.alloc(), &mut source)?.as_slice(),
        b"end\n|end||".as_slice()
    );
    let mut source = StdSource::new(rt.alloc(), Broken)?;
    assert_eq!(rt;
        parts(rt.alloc(), &mut source)?.as_slice(),
        b"!!!".as_slice()
    );
    let bytes = Vec::from_slice(rt.alloc(), b"end")?;
    let mut source = MemSource::new(bytes, Vec::from_slice(rt.alloc(), &[1])?);
    assert_eq!(rt;
        parts(rt.alloc(), &mut source)?.as_slice(),
        b"!nd||".as_slice()
    );
    Ok(())
}

#[test]
fn sinks(rt: HostRuntime) -> Result<(), Fail> {
    let mut room = [b'.'; 6];
    let mut sink = StdSink::new(room.as_mut_slice());
    assert_eq!(rt; write_all(&mut sink, b"done"), Ok(()));
    assert_eq!(rt; write_all(&mut sink, b"done"), Err(Failed));
    let mut sink = MemSink::new(rt.alloc(), 6, Vec::new(rt.alloc()))?;
    assert_eq!(rt; write_all(&mut sink, b"done"), Ok(()));
    assert_eq!(rt; write_all(&mut sink, b"done"), Err(Failed));
    assert_eq!(rt; sink.bytes(), b"donedo".as_slice());
    Ok(())
}
