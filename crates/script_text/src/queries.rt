ghost use Rattle.std.specs.Prelude.{◌≡◌};
ghost use Rattle.std.specs.Option.{option_copied};
ghost use Rattle.script_text.specs.Lines.{words_after};
ghost use Rattle.script_text.specs.Script.{event_line, storm_line, slot_line, line_of};

use crate::arguments::{alone, one_byte, one_number, two_bytes, two_numbers};
use crate::events::event;
use crate::reading::ScriptLine;
use crate::{FaultKind, Line};

fn event_line(word: &str, args: Option<&str>) -> Result<Line, FaultKind>
    ensures { result ≡ event_line word.now (words_after (option_copied args.entry)) }
{
    Ok(Line::Event(event(word, args)?))
}

fn storm_line(args: Option<&str>) -> Result<Line, FaultKind>
    ensures { result ≡ storm_line (words_after (option_copied args.entry)) }
{
    let (seed, turns) = two_numbers(args)?;
    Ok(Line::Storm { seed, turns })
}

fn slot_line(args: Option<&str>) -> Result<Line, FaultKind>
    ensures { result ≡ slot_line (words_after (option_copied args.entry)) }
{
    let (leg, node) = two_bytes(args)?;
    Ok(Line::Slot { leg, node })
}

impl ScriptLine for Line {
    ghost says = { line_of };

    fn of_words(word: &str, args: Option<&str>) -> Result<Line, FaultKind> {
        match word {
            "check" => alone(Line::Check, args),
            "record" => alone(Line::Record, args),
            "view" => Ok(Line::View(one_byte(args)?)),
            "map" => Ok(Line::Map(one_byte(args)?)),
            "size" => Ok(Line::Size(one_byte(args)?)),
            "slot" => slot_line(args),
            "compare" => alone(Line::Compare, args),
            "auto" => Ok(Line::Auto(one_number(args)?)),
            "storm" => storm_line(args),
            _ => event_line(word, args),
        }
    }
}
