ghost use Rattle.std.specs.Prelude.{◌≡◌, ◌≤◌, ◌++◌, ◌-◌, length, replicate, true};
ghost use Rattle.mdc_types.specs.Names.{is_name};
ghost use Rattle.command_words.specs.Commands.{HasNames};

use super::*;
use std::alloc::{AllocError, Global};
use std::test::*;

// What is asked of a name where images are made.
fn told_name(alloc: Global, word: &str, name: &str) -> Result<String, AllocError>
    requires length { length name.now ≤ 32 }
    requires name { is_name (name.now ++ replicate (32 - length name.now) 0) ≡ true }
{
    format!(in alloc; "{word} {name},")
}

fn told_command(alloc: Global, command: Command<'_>) -> Result<String, AllocError>
    requires { HasNames command }
{
    match command {
        Command::Create {
            name,
            geometry: _,
            uuid: _,
        } => told_name(alloc, "create", name),
        Command::Show { name } => told_name(alloc, "show", name),
        Command::Play => String::from_str(alloc, "play,"),
        Command::PlayImages { name } => told_name(alloc, "play", name),
        Command::Upgrade { name: _, to } => told_name(alloc, "upgrade", to),
        Command::Locks => String::from_str(alloc, "locks,"),
        Command::Wire => String::from_str(alloc, "wire,"),
    }
}

// The command of words that spaces part.
fn told(alloc: Global, text: &str) -> Result<String, AllocError> {
    let mut words = Vec::new(alloc);
    for word in text.split(' ') {
        words.push(String::from_str(alloc, word)?)?;
    }
    match read_words(alloc, &words) {
        Ok(command) => told_command(alloc, command),
        Err(WordsEnd::Usage) => String::from_str(alloc, "usage,"),
        Err(WordsEnd::Memory) => String::from_str(alloc, "memory,"),
    }
}

#[test]
fn commands(rt: HostRuntime) -> Result<(), Fail> {
    let mut all = String::new(rt.alloc());
    for text in [
        "create demo 2 16 4 000000000000000000000000000000ff",
        "create2 a_1 8 16 4 00000000000000000000000000000010 20",
        "show demo",
        "play",
        "play demo",
        "upgrade a b",
        "upgrade a a",
        "show -x",
        "wire x",
        "create -x 2 16 4 000000000000000000000000000000ff",
        "play --help",
        "--version",
        "help",
        "play a b",
        "create demo 2 16 4",
        "create demo 2 16 4 000000000000000000000000000000ff 20 1",
        "locks --",
        "show",
        "",
    ] {
        all.push_str(told(rt.alloc(), text)?.as_str())?;
    }
    assert_eq!(rt;
        all.as_str(),
        "create demo,create a_1,show demo,play,play demo,upgrade b,usage,usage,usage,usage,usage,usage,usage,usage,usage,usage,usage,usage,usage,"
    );
    Ok(())
}
