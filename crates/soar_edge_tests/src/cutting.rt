//! Commands cut from a stream, as they were worked out by hand.
ghost use Rattle.std.specs.Prelude.{◌≡◌, ◌<◌, ◌^◌, length};

use soar_edge::{Command, Cut, Cutter};
use soar_sym::NoMemory;
use std::alloc::Global;
use std::test::Fail;

/// A stream and what is told of it: the commands, and `E` at its end or the line of a command that has none.
const STREAMS: &[(&[u8], &[u8])] = &[
    (b"", b"E"),
    (b"a\nb \n", b"a@1;b @2;E"),
    (b"p {a\n b}\nq", b"p {a\n b}@1;q@3;E"),
    (b"}{\n}\nb", b"}{\n}@1;b@3;E"),
    (b"|a\n\\|\n|\nc", b"|a\n\\|\n|@1;c@4;E"),
    (b"\"a\\\"\n\"\nc", b"\"a\\\"\n\"@1;c@3;E"),
    (b" # x\n\n a # { |\nb", b"a # { |@3;b@4;E"),
    (b"a {# }\n}\n", b"a {# }\n}@1;E"),
    (b"a\n# x", b"a@1;E"),
    (b"\na {\n", b"2"),
    (b"a\n\n|a\n", b"a@1;3"),
    (b"a \\\n\\{\n}", b"a \\@1;\\{\n}@2;E"),
];

#[test]
fn a_stream_is_cut_into_commands(rt: HostRuntime) -> Result<(), Fail> {
    for (text, want) in STREAMS {
        assert!(rt; is_told(rt.alloc(), text, want)?);
    }
    Ok(())
}

/// Whether this is told of a stream that is fed at once, and of one that is fed byte by byte.
fn is_told(alloc: Global, text: &[u8], want: &[u8]) -> Result<bool, NoMemory> {
    if text.len() > 100 {
        return Ok(false);
    }
    let at_once = told_at_once(alloc, text)?;
    let by_bytes = told_by_bytes(alloc, text)?;
    Ok(at_once.as_slice() == want && by_bytes.as_slice() == want)
}

/// What is told of a stream that is fed at once.
fn told_at_once(alloc: Global, text: &[u8]) -> Result<Vec<u8>, NoMemory>
    requires { length text.now < 2 ^ 20 }
{
    let mut told = Vec::new(alloc);
    let mut cutter = Cutter::new(alloc)?;
    cutter.feed(text)?;
    write_down(&mut cutter, &mut told)?;
    cutter.close();
    write_down(&mut cutter, &mut told)?;
    Ok(told)
}

/// What is told of a stream that is fed byte by byte.
fn told_by_bytes(alloc: Global, text: &[u8]) -> Result<Vec<u8>, NoMemory>
    requires { length text.now < 2 ^ 20 }
{
    let mut told = Vec::new(alloc);
    let mut cutter = Cutter::new(alloc)?;
    'bytes: for byte in text {
        cutter.feed(&[*byte])?;
        write_down(&mut cutter, &mut told)?;
    }
    cutter.close();
    write_down(&mut cutter, &mut told)?;
    Ok(told)
}

/// Writes the whole commands down that are next, and then how the stream ended.
fn write_down(cutter: &mut Cutter, told: &mut Vec<u8>) -> Result<(), NoMemory>
    ensures fed { cutter.new.fed ≡ cutter.old.fed }
    ensures closed { cutter.new.closed ≡ cutter.old.closed }
{
    'commands: for _ in 0..4u8 {
        match cutter.next_command()? {
            Cut::Whole(command) => write_command(&command, told)?,
            Cut::More => return Ok(()),
            Cut::End => return Ok(told.push(b'E')?),
            Cut::Unfinished(line) => return Ok(told.push(digit(line))?),
            Cut::TooLong => return Ok(told.push(b'L')?),
        }
    }
    Ok(())
}

/// A command, and its line behind it.
fn write_command(command: &Command, told: &mut Vec<u8>) -> Result<(), NoMemory> {
    told.extend_from_slice(command.text.as_slice())?;
    told.extend_from_slice(&[b'@', digit(command.line), b';'])?;
    Ok(())
}

/// The last digit of a number.
fn digit(number: u64) -> u8 {
    b'0' + (number % 10) as u8
}

#[test]
fn a_command_comes_with_its_newline(rt: HostRuntime) -> Result<(), Fail> {
    assert!(rt; waits_for_its_newline(rt.alloc())?);
    Ok(())
}

fn waits_for_its_newline(alloc: Global) -> Result<bool, NoMemory> {
    let mut cutter = Cutter::new(alloc)?;
    cutter.feed(b" a")?;
    let waits = matches!(cutter.next_command()?, Cut::More);
    cutter.feed(b"\n")?;
    let comes = matches!(cutter.next_command()?, Cut::Whole(_));
    Ok(waits && comes && matches!(cutter.next_command()?, Cut::More))
}

#[test]
fn a_command_has_1_mib_at_most(rt: HostRuntime) -> Result<(), Fail> {
    let most = vec![in rt.alloc(); b'a'; 1 << 20]?;
    assert!(rt; is_whole(rt.alloc(), &most, b"\n")? && !is_whole(rt.alloc(), &most, b"a\n")?);
    Ok(())
}

/// Whether a command of these bytes and then more is whole, and not too long.
fn is_whole(alloc: Global, most: &[u8], more: &[u8]) -> Result<bool, NoMemory>
    requires first { length most.now < 2 ^ 32 }
    requires second { length more.now < 2 ^ 32 }
{
    let mut cutter = Cutter::new(alloc)?;
    cutter.feed(most)?;
    cutter.feed(more)?;
    match cutter.next_command()? {
        Cut::Whole(_) => Ok(true),
        Cut::TooLong => Ok(false),
        _ => Err(NoMemory),
    }
}
