ghost use Rattle.std.specs.Prelude.{◌≡◌, ◌↔◌, ℕ, length, map, reverse, All, IfOk, IsTrue};
ghost use Rattle.plain_history.specs.History.{values_at, Legal};
ghost use Rattle.plain_history.specs.Runs.{IsFirstBad};
ghost use Rattle.plain_history.specs.Tables.{IsWithin};

use crate::{Plain, PlainEnd};
use mdc_types::{Entry, Event, Sector};
use std::alloc::{AllocError, Global};

/// Whether a trace is legal.
#[derive(Clone, Copy, PartialEq, Eq, Debug)]
pub enum Checked {
    /// Each entry is legal after those before it.
    Legal,
    /// The place, from 0, of the first entry that isn't.
    FirstBad(u64),
}

/// Whether a write that the entry asks is of one of so many sectors.
pub fn is_within(e: &Entry, sectors: usize) -> bool
    ensures { IsTrue result ↔ IsWithin sectors e.now.event }
{
    match e.event {
        Event::AskWrite(_, s, _) => (s as usize) < sectors,
        _ => true,
    }
}

/// Whether each write that the trace asks is of one of so many sectors.
pub fn fits(trace: &[Entry], sectors: usize) -> bool
    ensures { IsTrue result ↔ All (λ x. IsWithin sectors x.event) trace.now }
{
    trace.iter().all(|e| is_within(e, sectors))
}

fn copy_lists(alloc: Global, lists: &[Vec<Sector>]) -> Result<Vec<Vec<Sector>>, AllocError>
    ensures { IfOk result (λ copy. map (λ list. list.items) copy.items ≡ map (λ list. list.items) lists.now) }
{
    let mut copy = Vec::with_capacity(alloc, lists.len())?;
    for list in lists {
        copy.push(Vec::from_slice(alloc, list)?)?;
    }
    Ok(copy)
}

/// Whether the trace, oldest entry first, is legal after an opening with these candidates for each
/// sector, and else its first bad entry. It takes memory for the candidates and for what is in flight.
pub fn check(alloc: Global, opening: &[Vec<Sector>], trace: &[Entry]) -> Result<Checked, AllocError>
    requires { All (λ x. IsWithin (length opening.now) x.event) trace.now }
    ensures legal { IfOk result (λ answer. (answer ≡ Checked.Legal) ↔ Legal (values_at (map (λ list. list.items) opening.now)) (reverse trace.now)) }
    ensures first { (i : ℕ) → result ≡ Ok (Checked.FirstBad i) → IsFirstBad (values_at (map (λ list. list.items) opening.now)) trace.now i }
{
    let mut plain = Plain::open(copy_lists(alloc, opening)?);
    for (i, e) in trace.iter().enumerate() {
        match plain.run(e) {
            Ok(()) => {}
            Err(PlainEnd::Bad) => return Ok(Checked::FirstBad(i as u64)),
            Err(PlainEnd::Memory) => return Err(AllocError),
        }
    }
    Ok(Checked::Legal)
}

#[cfg(test)]
mod tests {
    use super::*;
    use mdc_types::Outcome;
    use std::process::Abort;

    fn sector(first: u8, last: u8) -> Sector {
        let mut bytes = [0; 512];
        bytes[0] = first;
        bytes[511] = last;
        Sector { bytes }
    }

    fn entry(event: Event, outcome: Outcome) -> Entry {
        Entry { event, outcome }
    }

    fn gives(value: Sector) -> Entry {
        entry(Event::In(2, 7), Outcome::Value { leg: 1, value })
    }

    // Sector 1 opens with zeros, and sector 0 with no candidate.
    fn answer(rt: &impl Abort, alloc: Global, trace: &[Entry]) -> Result<Checked, AllocError> {
        let zeros = vec![in alloc; Sector::ZERO]?;
        let opening = vec![in alloc; Vec::new(alloc), zeros]?;
        assert!(rt; fits(trace, 2));
        check(alloc, &opening, trace)
    }

    #[test]
    fn answers(rt: HostRuntime) -> Result<(), AllocError> {
        let old = Sector::ZERO;
        let new = sector(1, 1);
        let near = sector(1, 2);

        let ask = entry(Event::AskWrite(0, 1, new), Outcome::Write(7));
        let start = entry(Event::Out(0, 7, 0), Outcome::Lost(0));
        let last_leg = entry(Event::Out(0, 7, 0), Outcome::Io(0));
        let end = entry(Event::EndWrite(0, 7), Outcome::Done);
        let breaks = entry(Event::BreakWrite(0, 7), Outcome::Done);
        let die = entry(Event::Die(0), Outcome::Done);
        let other = entry(Event::AskWrite(1, 1, near), Outcome::Write(0));
        let read = entry(Event::AskRead(2, 1), Outcome::Read(7));
        let lost = entry(Event::In(2, 7), Outcome::Lost(1));
        let no_leg = entry(Event::In(2, 7), Outcome::Io(1));
        let settle = |value| entry(Event::Settle(3), Outcome::Settled { sector: 1, value });

        // While the write is open both values may be read, and after its end the new one alone.
        let legal = [
            ask,
            read,
            gives(old),
            start,
            read,
            lost,
            gives(old),
            read,
            gives(new),
            end,
            read,
            gives(new),
            other,
        ];
        assert_eq!(rt; answer(&rt, rt.alloc(), &legal)?, Checked::Legal);
        // A broken write and that of a dead node stay open until a settle.
        let settled = [
            ask,
            last_leg,
            settle(old),
            ask,
            start,
            breaks,
            ask,
            start,
            die,
            read,
            gives(new),
            settle(new),
        ];
        assert_eq!(rt; answer(&rt, rt.alloc(), &settled)?, Checked::Legal);

        assert_eq!(rt; answer(&rt, rt.alloc(), &[])?, Checked::Legal);
        assert_eq!(rt;
            answer(&rt, rt.alloc(), &[ask, start, end, read, gives(old)])?,
            Checked::FirstBad(4)
        );
        assert_eq!(rt;
            answer(&rt, rt.alloc(), &[ask, start, read, gives(near)])?,
            Checked::FirstBad(3)
        );
        assert_eq!(rt;
            answer(&rt, rt.alloc(), &[ask, read, gives(new)])?,
            Checked::FirstBad(2)
        );
        assert_eq!(rt;
            answer(&rt, rt.alloc(), &[gives(old)])?,
            Checked::FirstBad(0)
        );
        // A read ends only where it was asked, also without a value.
        assert_eq!(rt; answer(&rt, rt.alloc(), &[lost])?, Checked::FirstBad(0));
        assert_eq!(rt;
            answer(&rt, rt.alloc(), &[read, no_leg, no_leg])?,
            Checked::FirstBad(2)
        );
        assert_eq!(rt; answer(&rt, rt.alloc(), &[ask, end])?, Checked::FirstBad(1));
        assert_eq!(rt;
            answer(&rt, rt.alloc(), &[ask, start, die, end])?,
            Checked::FirstBad(3)
        );
        assert_eq!(rt;
            answer(&rt, rt.alloc(), &[ask, start, end, end])?,
            Checked::FirstBad(3)
        );
        assert_eq!(rt;
            answer(&rt, rt.alloc(), &[ask, other])?,
            Checked::FirstBad(1)
        );
        assert_eq!(rt;
            answer(&rt, rt.alloc(), &[ask, settle(new)])?,
            Checked::FirstBad(1)
        );
        Ok(())
    }
}
