ghost use Rattle.std.specs.Prelude.{◌≡◌};
ghost use Rattle.std.specs.Option.{option_copied};
ghost use Rattle.script_text.specs.Lines.{words_after};
ghost use Rattle.script_text.specs.Events.{request_word, round_word, copy_word, member_word, event_word, node_event, node_leg_event, node_number_event, node_number_leg_event, write_event, meta_with, meta_wish, range_wish, wish_with, wish_of, offer_event, pass_kind_with, pass_of, pass_with, pass_event, event_with, event_of};

use crate::FaultKind;
use crate::arguments::{
    alone, byte_number, byte_number_byte, one_byte, one_number, one_res, two_bytes, two_numbers,
};
use crate::lines::{split_word, three};
use crate::numbers::{byte_word, number_word, value_word};
use mdc_types::{Event, LegId, NodeId, Range, Wish};

/// A word that a node alone follows.
#[derive(Clone, Copy)]
pub(crate) enum NodeWord {
    Die,
    Join,
    Up,
    Leave,
    AskToken,
    AskMessage,
    Publish,
    FinishRound,
    Quit,
    Take,
    Processed,
    Resume,
    DropMessage,
    AskResync,
    Gather,
    CopyIn,
    Settle,
    EndPass,
    Recovered,
    LockDevice,
}

/// A word that a node and a leg follow, or a node and a slot.
#[derive(Clone, Copy)]
pub(crate) enum NodeLegWord {
    Cut,
    Mend,
    Load,
    WriteSuper,
    CopyOut,
    Recover,
}

/// A word that a node and a number follow.
#[derive(Clone, Copy)]
pub(crate) enum NodeNumberWord {
    EndWrite,
    BreakWrite,
    AskRead,
    In,
    Clear,
}

/// A word that a node, a number and a leg follow.
#[derive(Clone, Copy)]
pub(crate) enum NodeNumberLegWord {
    WritePage,
    Out,
    SlotIn,
    SlotOut,
}

/// The first word of an event's line, by what follows it.
#[derive(Clone, Copy)]
pub(crate) enum EventWord {
    Node(NodeWord),
    NodeLeg(NodeLegWord),
    NodeNumber(NodeNumberWord),
    NodeNumberLeg(NodeNumberLegWord),
    Write,
    Grant,
    Offer,
    Pass,
}

/// What a pass is to copy.
#[derive(Clone, Copy)]
pub(crate) enum PassKind {
    Own,
    Full,
    Again(LegId),
}

fn request_word(word: &str) -> Option<EventWord>
    ensures { result ≡ request_word word.now }
{
    match word {
        "w" => Some(EventWord::Write),
        "out" => Some(EventWord::NodeNumberLeg(NodeNumberLegWord::Out)),
        "ok" => Some(EventWord::NodeNumber(NodeNumberWord::EndWrite)),
        "r" => Some(EventWord::NodeNumber(NodeNumberWord::AskRead)),
        "in" => Some(EventWord::NodeNumber(NodeNumberWord::In)),
        "bit" => Some(EventWord::NodeNumberLeg(NodeNumberLegWord::WritePage)),
        "clear" => Some(EventWord::NodeNumber(NodeNumberWord::Clear)),
        "break" => Some(EventWord::NodeNumber(NodeNumberWord::BreakWrite)),
        _ => None,
    }
}

fn round_word(word: &str) -> Option<EventWord>
    ensures { result ≡ round_word word.now }
{
    match word {
        "grant" => Some(EventWord::Grant),
        "token" => Some(EventWord::Node(NodeWord::AskToken)),
        "message" => Some(EventWord::Node(NodeWord::AskMessage)),
        "offer" => Some(EventWord::Offer),
        "sb" => Some(EventWord::NodeLeg(NodeLegWord::WriteSuper)),
        "publish" => Some(EventWord::Node(NodeWord::Publish)),
        "take" => Some(EventWord::Node(NodeWord::Take)),
        "processed" => Some(EventWord::Node(NodeWord::Processed)),
        "finish" => Some(EventWord::Node(NodeWord::FinishRound)),
        "resume" => Some(EventWord::Node(NodeWord::Resume)),
        "drop" => Some(EventWord::Node(NodeWord::DropMessage)),
        "quit" => Some(EventWord::Node(NodeWord::Quit)),
        _ => None,
    }
}

fn copy_word(word: &str) -> Option<EventWord>
    ensures { result ≡ copy_word word.now }
{
    match word {
        "ci" => Some(EventWord::Node(NodeWord::CopyIn)),
        "co" => Some(EventWord::NodeLeg(NodeLegWord::CopyOut)),
        "settle" => Some(EventWord::Node(NodeWord::Settle)),
        "resync" => Some(EventWord::Node(NodeWord::AskResync)),
        "pass" => Some(EventWord::Pass),
        "done" => Some(EventWord::Node(NodeWord::EndPass)),
        "gather" => Some(EventWord::Node(NodeWord::Gather)),
        "rec" => Some(EventWord::NodeLeg(NodeLegWord::Recover)),
        "slotin" => Some(EventWord::NodeNumberLeg(NodeNumberLegWord::SlotIn)),
        "slotout" => Some(EventWord::NodeNumberLeg(NodeNumberLegWord::SlotOut)),
        "recovered" => Some(EventWord::Node(NodeWord::Recovered)),
        _ => None,
    }
}

fn member_word(word: &str) -> Option<EventWord>
    ensures { result ≡ member_word word.now }
{
    match word {
        "cut" => Some(EventWord::NodeLeg(NodeLegWord::Cut)),
        "mend" => Some(EventWord::NodeLeg(NodeLegWord::Mend)),
        "die" => Some(EventWord::Node(NodeWord::Die)),
        "join" => Some(EventWord::Node(NodeWord::Join)),
        "load" => Some(EventWord::NodeLeg(NodeLegWord::Load)),
        "up" => Some(EventWord::Node(NodeWord::Up)),
        "leave" => Some(EventWord::Node(NodeWord::Leave)),
        "lockdev" => Some(EventWord::Node(NodeWord::LockDevice)),
        _ => None,
    }
}

fn event_word(word: &str) -> Option<EventWord>
    ensures { result ≡ event_word word.now }
{
    if let Some(found) = request_word(word) {
        return Some(found);
    }
    if let Some(found) = round_word(word) {
        return Some(found);
    }
    if let Some(found) = copy_word(word) {
        return Some(found);
    }
    member_word(word)
}

fn node_event(word: NodeWord, n: NodeId) -> Event
    ensures { result ≡ node_event word n }
{
    match word {
        NodeWord::Die => Event::Die(n),
        NodeWord::Join => Event::Join(n),
        NodeWord::Up => Event::Up(n),
        NodeWord::Leave => Event::Leave(n),
        NodeWord::AskToken => Event::AskToken(n),
        NodeWord::AskMessage => Event::AskMessage(n),
        NodeWord::Publish => Event::Publish(n),
        NodeWord::FinishRound => Event::FinishRound(n),
        NodeWord::Quit => Event::Quit(n),
        NodeWord::Take => Event::Take(n),
        NodeWord::Processed => Event::Processed(n),
        NodeWord::Resume => Event::Resume(n),
        NodeWord::DropMessage => Event::DropMessage(n),
        NodeWord::AskResync => Event::AskResync(n),
        NodeWord::Gather => Event::Gather(n),
        NodeWord::CopyIn => Event::CopyIn(n),
        NodeWord::Settle => Event::Settle(n),
        NodeWord::EndPass => Event::EndPass(n),
        NodeWord::Recovered => Event::Recovered(n),
        NodeWord::LockDevice => Event::LockDevice(n),
    }
}

fn node_leg_event(word: NodeLegWord, n: NodeId, l: LegId) -> Event
    ensures { result ≡ node_leg_event word n l }
{
    match word {
        NodeLegWord::Cut => Event::Cut(n, l),
        NodeLegWord::Mend => Event::Mend(n, l),
        NodeLegWord::Load => Event::Load(n, l),
        NodeLegWord::WriteSuper => Event::WriteSuper(n, l),
        NodeLegWord::CopyOut => Event::CopyOut(n, l),
        NodeLegWord::Recover => Event::Recover(n, l),
    }
}

fn node_number_event(word: NodeNumberWord, n: NodeId, k: u32) -> Event
    ensures { result ≡ node_number_event word n k }
{
    match word {
        NodeNumberWord::EndWrite => Event::EndWrite(n, k),
        NodeNumberWord::BreakWrite => Event::BreakWrite(n, k),
        NodeNumberWord::AskRead => Event::AskRead(n, k),
        NodeNumberWord::In => Event::In(n, k),
        NodeNumberWord::Clear => Event::Clear(n, k),
    }
}

fn node_number_leg_event(word: NodeNumberLegWord, n: NodeId, k: u32, l: LegId) -> Event
    ensures { result ≡ node_number_leg_event word n k l }
{
    match word {
        NodeNumberLegWord::WritePage => Event::WritePage(n, k, l),
        NodeNumberLegWord::Out => Event::Out(n, k, l),
        NodeNumberLegWord::SlotIn => Event::SlotIn(n, k, l),
        NodeNumberLegWord::SlotOut => Event::SlotOut(n, k, l),
    }
}

fn write_event(args: Option<&str>) -> Result<Event, FaultKind>
    ensures { result ≡ write_event (words_after (option_copied args.entry)) }
{
    let (node, sector, value) = three(args).ok_or(FaultKind::Count)?;
    Ok(Event::AskWrite(byte_word(node)?, number_word(sector)?, value_word(value)?))
}

fn meta_with(word: &str, args: Option<&str>) -> Result<Wish, FaultKind>
    ensures { result ≡ meta_with word.now (words_after (option_copied args.entry)) }
{
    match word {
        "spare" => Ok(Wish::Spare(one_byte(args)?)),
        "rebuild" => Ok(Wish::Rebuild(one_byte(args)?)),
        "work" => Ok(Wish::Work(one_byte(args)?)),
        _ => Err(FaultKind::Word),
    }
}

fn meta_wish(args: Option<&str>) -> Result<Wish, FaultKind>
    ensures { result ≡ meta_wish (words_after (option_copied args.entry)) }
{
    match args {
        None => Ok(Wish::Meta),
        Some(args) => {
            let (word, others) = split_word(args);
            meta_with(word, others)
        }
    }
}

fn range_wish(args: Option<&str>) -> Result<Wish, FaultKind>
    ensures { result ≡ range_wish (words_after (option_copied args.entry)) }
{
    let (lo, hi) = two_numbers(args)?;
    Ok(Wish::Range(Range { lo, hi }))
}

fn wish_with(word: &str, args: Option<&str>) -> Result<Wish, FaultKind>
    ensures { result ≡ wish_with word.now (words_after (option_copied args.entry)) }
{
    match word {
        "meta" => meta_wish(args),
        "range" => range_wish(args),
        "newdisk" => Ok(Wish::NewDisk(one_byte(args)?)),
        "remove" => Ok(Wish::Remove(one_byte(args)?)),
        "readd" => Ok(Wish::ReAdd(one_byte(args)?)),
        "unclean" => alone(Wish::Unclean, args),
        "grow" => Ok(Wish::Grow(one_number(args)?)),
        _ => Err(FaultKind::Word),
    }
}

fn wish(args: Option<&str>) -> Result<Wish, FaultKind>
    ensures { result ≡ wish_of (words_after (option_copied args.entry)) }
{
    match args {
        None => Err(FaultKind::Count),
        Some(args) => {
            let (word, others) = split_word(args);
            wish_with(word, others)
        }
    }
}

fn offer_event(args: Option<&str>) -> Result<Event, FaultKind>
    ensures { result ≡ offer_event (words_after (option_copied args.entry)) }
{
    match args {
        None => Err(FaultKind::Count),
        Some(args) => {
            let (node, others) = split_word(args);
            let wish = wish(others)?;
            Ok(Event::Offer(byte_word(node)?, wish))
        }
    }
}

fn pass_kind_with(word: &str, args: Option<&str>) -> Result<PassKind, FaultKind>
    ensures { result ≡ pass_kind_with word.now (words_after (option_copied args.entry)) }
{
    match word {
        "own" => alone(PassKind::Own, args),
        "full" => alone(PassKind::Full, args),
        "again" => Ok(PassKind::Again(one_byte(args)?)),
        _ => Err(FaultKind::Word),
    }
}

fn pass_kind(args: Option<&str>) -> Result<PassKind, FaultKind>
    ensures { result ≡ pass_of (words_after (option_copied args.entry)) }
{
    match args {
        None => Err(FaultKind::Count),
        Some(args) => {
            let (word, others) = split_word(args);
            pass_kind_with(word, others)
        }
    }
}

fn pass_with(kind: PassKind, n: NodeId) -> Event
    ensures { result ≡ pass_with kind n }
{
    match kind {
        PassKind::Own => Event::PassOwn(n),
        PassKind::Full => Event::PassFull(n),
        PassKind::Again(l) => Event::PassAgain(n, l),
    }
}

fn pass_event(args: Option<&str>) -> Result<Event, FaultKind>
    ensures { result ≡ pass_event (words_after (option_copied args.entry)) }
{
    match args {
        None => Err(FaultKind::Count),
        Some(args) => {
            let (node, others) = split_word(args);
            let kind = pass_kind(others)?;
            Ok(pass_with(kind, byte_word(node)?))
        }
    }
}

fn event_with(word: EventWord, args: Option<&str>) -> Result<Event, FaultKind>
    ensures { result ≡ event_with word (words_after (option_copied args.entry)) }
{
    match word {
        EventWord::Node(word) => Ok(node_event(word, one_byte(args)?)),
        EventWord::NodeLeg(word) => {
            let (n, l) = two_bytes(args)?;
            Ok(node_leg_event(word, n, l))
        }
        EventWord::NodeNumber(word) => {
            let (n, k) = byte_number(args)?;
            Ok(node_number_event(word, n, k))
        }
        EventWord::NodeNumberLeg(word) => {
            let (n, k, l) = byte_number_byte(args)?;
            Ok(node_number_leg_event(word, n, k, l))
        }
        EventWord::Write => write_event(args),
        EventWord::Grant => Ok(Event::Grant(one_res(args)?)),
        EventWord::Offer => offer_event(args),
        EventWord::Pass => pass_event(args),
    }
}

/// The event of the line of this first word and the words after it.
pub(crate) fn event(word: &str, args: Option<&str>) -> Result<Event, FaultKind>
    ensures { result ≡ event_of word.now (words_after (option_copied args.entry)) }
{
    let word = event_word(word).ok_or(FaultKind::Word)?;
    event_with(word, args)
}
