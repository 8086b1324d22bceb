ghost use Rattle.cluster_msgs.specs.Messages.{MessagesHaveOneSpelling};
ghost use Rattle.cluster_msgs.specs.Ranges.{RangesHaveOneSpelling};
ghost use Rattle.cluster_msgs.specs.Reading.{SaysWhatIsSpelled, SaysTheRange};

/// No two messages have one spelling. It does nothing: its clause is the law.
pub fn messages_have_one_spelling()
    ensures { MessagesHaveOneSpelling }
{}

/// No two ranges have one spelling. It does nothing: its clause is the law.
pub fn ranges_have_one_spelling()
    ensures { RangesHaveOneSpelling }
{}

/// A block says a message exactly where it spells it. It does nothing: its clause is the law.
pub fn blocks_say_what_they_spell()
    ensures { SaysWhatIsSpelled }
{}

/// A block says a range exactly where it spells it. It does nothing: its clause is the law.
pub fn blocks_say_their_range()
    ensures { SaysTheRange }
{}
