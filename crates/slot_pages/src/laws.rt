ghost use Rattle.slot_pages.specs.Laws.{SpellsTheSet, HasTheSet, HasOneSpelling, SpellsItsBits};

/// The bytes that spell a set are a sector in the grammar of slots. It does nothing: its clause is the law.
pub fn sets_are_spelled()
    ensures { SpellsTheSet }
{}

/// A page that spells a set has the set's chunks that are the page's, and no others. It does nothing: its
/// clause is the law.
pub fn pages_have_their_set()
    ensures { HasTheSet }
{}

/// No other page spells the set. It does nothing: its clause is the law.
pub fn sets_have_one_spelling()
    ensures { HasOneSpelling }
{}

/// A page without a fault spells its own bits. It does nothing: its clause is the law.
pub fn pages_spell_their_bits()
    ensures { SpellsItsBits }
{}
