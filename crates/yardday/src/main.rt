// Plays a day in a yard: reads a sheet, a line `.` and commands from standard input, and prints what each command is answered.
#![tactic(auto)]

use commands::{Answer, parted, write_answer};
use desk::play;
use interlocking::Interlocking;
use network::network::Network;
use network::sheet::Sheet;
use reader::read;
use std::alloc::AllocError;
use std::io::Read;
use trackside::plant::Plant;
use yard::Yard;
use yard::train::Train;
use yard::wish::Wish;

// Works a new yard by the commands, over 64 train records and 64 wish slots.
fn work(out: &mut String, sheet: Sheet, commands: &[u8]) -> Result<(), AllocError> {
    let mut plant = Plant::new(Network::new());
    let mut records = [Train::new(); 64];
    let mut slots = [Wish::Enter { block: 0 }; 64];
    let yard = Yard::new(sheet.network(), &mut plant, &mut records, &mut slots, 0, 0);
    let mut interlocking = Interlocking::make(yard, sheet, 0);
    play(&mut interlocking, out, commands)
}

fn main(rt: HostRuntime) -> anyhow::Result<()> {
    let mut input = Vec::new(rt.alloc());
    rt.stdin().read_to_end(&mut input)?;
    let parts = parted(input.as_slice());
    let mut out = String::new(rt.alloc());
    match read(parts.sheet) {
        Ok(sheet) => work(&mut out, sheet, parts.commands)?,
        Err(refusal) => write_answer(
            &mut out,
            Answer::Refused {
                number: refusal.number(),
                place: refusal.line(),
            },
        )?,
    }
    rt.print(out.as_str())?;
    Ok(())
}
