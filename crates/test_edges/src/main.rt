// The edges of the calls of planbook by running: what each check refuses and what it lets through,
// books in which two checks fail at once, and books that pass. The cases are in the file stdin, a
// script of commands, which says what each command does.
//
// The file stdout comes from the rules in docs/FORMAT.md and never from this program: a script of
// its own judged each case by them, and the few encrypted bytes are those of another CLEFIA.
#![tactic(auto)]

mod calls;

use calls::{perform, prepare, report};
use std::io;
use test_script::bench::Bench;
use test_script::commands::{Call, Command, UnknownCommand};
use test_script::input::read_script;
use test_script::script::Script;

// Commands that are run before it is said that there are too many.
const MOST_COMMANDS: u32 = 1000000;

// A line that no file stdout has.
fn write_unknown(rt: &impl Print, command: UnknownCommand) -> io::Result<()> {
    rt.write_all(b"unknown command: ")?;
    rt.write_all(command.0)?;
    rt.write_all(b"\n")
}

fn run_command<'a>(
    rt: &impl Print,
    command: Command<'a>,
    script: &mut Script<'a>,
    bench: &mut Bench<'a>,
) -> io::Result<()> {
    match command {
        Command::Remark => {}
        Command::Call(call) => return report(rt, call, bench),
        Command::Seal => {
            perform(Call::EncryptBook, bench);
        }
        Command::Prepare(length) => prepare(length, bench),
        Command::Mark => script.set_mark(),
        Command::Again => {
            if bench.next_way() {
                script.go_back();
            }
        }
        Command::Set(setting) => bench.set(setting),
        Command::Write(line) => return bench.write(rt, line),
    }
    Ok(())
}

fn run(rt: &impl Print, text: &[u8]) -> io::Result<()> {
    let mut script = Script::new(text);
    let mut bench = Bench::new();
    for _ in 0..MOST_COMMANDS {
        if script.is_at_end() {
            return Ok(());
        }
        match Command::try_from(script.next_command()) {
            Ok(command) => run_command(rt, command, &mut script, &mut bench)?,
            Err(unknown) => write_unknown(rt, unknown)?,
        }
    }
    if !script.is_at_end() {
        // The commands are run even where this cannot be said.
        let _ = rt.write_all(b"too many commands\n");
    }
    Ok(())
}

fn main(rt: HostRuntime) -> io::Result<()> {
    let mut space = [0u8; 131072];
    let n = read_script(&rt, &mut space);
    run(&rt, &space[..n])
}
